//! A source with a byte order mark, or lines that end in CR LF, as it is written.
ghost use Rattle.std.specs.Prelude.{◌≡◌, IfOk};
ghost use Rattle.source_plain.specs.Reading.{plain_source};
ghost use Rattle.source_format.specs.Layout.{formatted_text};
ghost use Rattle.source_format.specs.Sources as spec;

use crate::formatting::formatted;
use crate::laws;
use source_plain::{plain, written_like};
use std::alloc::{AllocError, Global};

// What is read of a source, in its layout.
fn formatted_plain(alloc: Global, width: usize, source: &[u8]) -> Result<Vec<u8>, AllocError>
    ensures { IfOk result (λ text. text.items ≡ formatted_text width (plain_source source.now)) }
{
    match plain(alloc, source)? {
        Some(plain) => formatted(alloc, width, plain.as_slice()),
        None => formatted(alloc, width, source),
    }
}

/// A source in the layout of [`formatted`], with the byte order mark and the line ends that it has:
/// each of its lines ends in CR LF if the first one does.
///
/// # Errors
/// Out of memory.
pub fn formatted_source(alloc: Global, width: usize, source: &[u8]) -> Result<Vec<u8>, AllocError>
    ensures text { IfOk result (λ text. text.items ≡ spec.formatted_source width source.now) }
    ensures laid_out { IfOk result (λ text. spec.IsLaidOut width source.now text.items) }
{
    // A law, with no code: it gives the clause `laid_out` of what is computed.
    laws::formatted_sources_are_faithful();
    let text = formatted_plain(alloc, width, source)?;
    written_like(alloc, source, text)
}
