//! Why a block has no entry.
ghost use Rattle.std.specs.Prelude.{◌≡◌, ◌<◌, IfOk, None, Some, length};
ghost use Rattle.std.specs.List.{position};
ghost use Rattle.base_meaning.specs.Compiled.{compiled};
ghost use Rattle.base_meaning.specs.Faults.{fault_seen};
ghost use Rattle.source_document.specs.Diagnostics.{diagnostic_seen};
ghost use Rattle.source_document.specs.Documents.{held};
ghost use Rattle.source_blocks.specs.Causes as spec;
ghost use Rattle.source_blocks.specs.Causes.{is_error_of};

use source_document::{Diagnostic, Document};
use std::alloc::{AllocError, Global};
use ti_base::Fault;

// Where the first error of a block is among faults.
fn first_error(faults: &[Fault], at: usize) -> Option<usize>
    ensures { result ≡ position (λ fault. is_error_of at (fault_seen fault)) faults.now }
{
    faults
        .iter()
        .position(|fault| fault.block == at && fault.code.is_error())
}

/// Why a block has no entry: the first error that the report has of it, as its diagnostic shows it.
pub(crate) fn cause_told(
    alloc: Global,
    document: &Document,
    at: usize,
) -> Result<Diagnostic, AllocError>
    requires within { at < length (held document.now) }
    requires none { compiled (held document.now) at ≡ None }
    ensures { IfOk result (λ cause. Some (diagnostic_seen cause) ≡ spec.cause_told document.now at) }
{
    missing_entries_have_a_cause();
    // A law, with no code: there is one diagnostic for each fault.
    source_document::laws::diagnostics_are_the_faults();
    let faults = document.database().faults()?;
    let mut diagnostics = document.diagnostics(alloc)?;
    match first_error(&faults, at) {
        Some(place) => Ok(diagnostics.remove(place)),
        None => unreachable!(),
    }
}

/// A law, with no code: a block has no entry exactly if the report has an error of it.
pub fn missing_entries_have_a_cause()
    ensures { spec.MissingEntriesHaveACause }
{
    base_meaning::laws::unresolved_blocks_have_a_cause();
}
