//! Cutting a source into blocks.
ghost use Rattle.std.specs.Prelude.{◌≡◌, ◌≤◌, ◌↔◌, IsTrue, length};
ghost use Rattle.ti_source.specs.Cutting as spec;
ghost use Rattle.ti_text.specs.Ascii as ascii;

use crate::heads::{begins_with_head, ends_with_newline, next_head, preface_len};
use crate::walk::Blocks;

/// The preface and the blocks of `source`, as parts of it. A block is a line that is not empty and
/// begins with neither white space nor `#`, with the lines after it up to the next such line
/// (X/Open Curses Issue 7, "Terminfo Source Format"). A last line without a newline belongs to the
/// last block, unchanged. It takes no memory.
pub fn blocks(source: &[u8]) -> Blocks<'_>
    ensures cut { spec.Cut source.now result.preface result.blocks }
    ensures preface { result.preface ≡ spec.front_of ascii.newline source.now }
    ensures blocks { result.blocks ≡ spec.blocks_from_head ascii.newline source.now }
    ensures len { length result.blocks ≤ length source.now }
{
    let (preface, rest) = source.split_at(preface_len(source));
    Blocks::new(preface, rest)
}

/// Whether `text` is one block, with nothing before it, and ends with a newline. It takes no
/// memory.
pub fn is_block(text: &[u8]) -> bool
    ensures { IsTrue result ↔ spec.OneBlock text.now }
{
    begins_with_head(text) && ends_with_newline(text) && next_head(text) == text.len()
}
