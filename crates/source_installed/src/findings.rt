//! What is wrong with a source some of whose used names are installed.
ghost use Rattle.std.specs.Prelude.{◌≡◌, IfOk, OnOk, map};
ghost use Rattle.std.specs.List.{list_any};
ghost use Rattle.std.specs.String.{string_bytes};
ghost use Rattle.source_document.specs.Diagnostics.{diagnostic_seen, diagnostics_by};
ghost use Rattle.source_diagnostics.specs.declared.capabilities.Capabilities.TheVariants.{UserDefined};
ghost use Rattle.source_installed.specs.Completed.{completed};
ghost use Rattle.source_installed.specs.Findings as spec;
ghost use Rattle.source_installed.specs.Findings.{findings_of, findings_seen, is_refusal, kept_of, kept_text, refuses};

use crate::completed::completed;
use crate::missed::{missed_names, missed_uses};
use crate::names::Installed;
use source_document::{Capabilities, Diagnostic, Document, Problem};
use source_types::Range;
use std::alloc::{AllocError, Global};

/// What is wrong with a source, and where it uses installed entries.
#[derive(Debug, Drop)]
pub struct Findings {
    /// What is wrong with it once it has the installed names that it uses.
    pub faults: Vec<Diagnostic>,
    /// Where it uses these names.
    pub uses: Vec<Range>,
}

// Whether a problem is one for which a whole source is refused.
fn is_refusal(problem: Problem) -> bool
    ensures { result ≡ is_refusal problem }
{
    matches!(problem, Problem::BlockTooLong | Problem::TooManyBlocks)
}

// Whether a source with these diagnostics is refused.
fn refuses(all: &[Diagnostic]) -> bool
    ensures { result ≡ refuses (map diagnostic_seen all.now) }
{
    all.iter().any(|shown| is_refusal(shown.problem))
}

// What is wrong with a text that has these names. It is put into `place`, a document which is kept
// for the next time.
fn completed_faults(
    alloc: Global,
    text: &[u8],
    names: &[String],
    place: &mut Document,
) -> Result<Vec<Diagnostic>, AllocError>
    ensures all { IfOk result (λ all. map diagnostic_seen all.items ≡ diagnostics_by UserDefined (completed text.now (map string_bytes names.now))) }
    ensures kept { OnOk result (place.new ≡ completed text.now (map string_bytes names.now)) }
{
    place.set(completed(alloc, text, names)?)?;
    place.diagnostics_by(alloc, Capabilities::UserDefined)
}

// What was found in a text with these diagnostics, which misses these names.
fn found_in(
    alloc: Global,
    text: &[u8],
    all: Vec<Diagnostic>,
    names: &[String],
    place: &mut Document,
) -> Result<Findings, AllocError>
    ensures found { IfOk result (λ found. findings_seen found ≡ spec.found_in text.now (map diagnostic_seen all.items) (map string_bytes names.now)) }
    ensures kept { OnOk result (place.new ≡ kept_text text.now (map string_bytes names.now) place.old) }
{
    if !names.is_empty() {
        let more = completed_faults(alloc, text, names, place)?;
        if !refuses(&more) {
            let uses = missed_uses(alloc, names, &all)?;
            return Ok(Findings { faults: more, uses });
        }
    }
    Ok(Findings {
        faults: all,
        uses: Vec::new(alloc),
    })
}

/// What is wrong with a source that may have user-defined capabilities, and where it uses names of
/// installed entries that no block of it has. It is read as if it had a block of each of these names
/// at its end, by which no use of it is an error; where it has no room for these, as without them.
/// `completed` holds the source with these blocks from then on, so that the next time only what is
/// new is read. If the source misses no name, it stays.
///
/// # Errors
/// Out of memory.
pub fn source_findings(
    alloc: Global,
    installed: &Installed,
    document: &mut Document,
    completed: &mut Document,
) -> Result<Findings, AllocError>
    ensures found { IfOk result (λ found. findings_seen found ≡ findings_of installed.now document.old) }
    ensures text { OnOk result (document.new ≡ document.old) }
    ensures kept { OnOk result (completed.new ≡ kept_of installed.now document.old completed.old) }
{
    let all = document.diagnostics_by(alloc, Capabilities::UserDefined)?;
    let names = missed_names(alloc, installed, &all)?;
    found_in(alloc, document.text(), all, &names, completed)
}
