//! A source with a byte order mark, or lines that end in CR LF, as it is written.
ghost use Rattle.std.specs.Prelude.{◌≡◌, IfOk};
ghost use Rattle.source_plain.specs.Reading.{plain_source};
ghost use Rattle.source_kept_lines.specs.Layout.{repaired_text};
ghost use Rattle.source_kept_lines.specs.Sources as spec;

use crate::laws;
use crate::repairing::repaired;
use source_plain::{plain, written_like};
use std::alloc::{AllocError, Global};

// What is read of a source, repaired.
fn repaired_plain(alloc: Global, width: usize, source: &[u8]) -> Result<Vec<u8>, AllocError>
    ensures { IfOk result (λ text. text.items ≡ repaired_text width (plain_source source.now)) }
{
    match plain(alloc, source)? {
        Some(plain) => repaired(alloc, width, plain.as_slice()),
        None => repaired(alloc, width, source),
    }
}

/// A source in the layout of [`repaired`], with the byte order mark and the line ends that it has: each
/// of its lines ends in CR LF if the first one does.
///
/// # Errors
/// Out of memory.
pub fn repaired_source(alloc: Global, width: usize, source: &[u8]) -> Result<Vec<u8>, AllocError>
    ensures text { IfOk result (λ text. text.items ≡ spec.repaired_source width source.now) }
    ensures is_repaired { IfOk result (λ text. spec.IsRepaired width source.now text.items) }
{
    // A law, with no code: it gives the clause `is_repaired` of what is computed.
    laws::repaired_sources_are_faithful();
    let text = repaired_plain(alloc, width, source)?;
    written_like(alloc, source, text)
}
