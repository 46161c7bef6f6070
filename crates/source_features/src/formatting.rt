//! The edit that lays out a document.
ghost use Rattle.std.specs.Prelude.{◌≡◌, IfOk, option_map};
ghost use Rattle.source_features.specs.Formatting as spec;
ghost use Rattle.source_features.specs.Formatting.{layout_edit, layout_seen};

use source_document::Document;
use source_edits::utf8_of;
use source_format::formatted_source;
use source_places::position_of;
use source_types::{Position, Range};
use std::alloc::{AllocError, Global};

// How many columns a line has at most, as `ti-fmt` has it where no width is given.
pub(crate) const COLUMNS: usize = 80;

/// A text that takes the place of a part of a document.
#[derive(Debug, Drop)]
pub struct LayoutEdit {
    /// The part.
    pub range: Range,
    /// Its new text.
    pub text: String,
}

// The range of a whole text.
fn whole_of(text: &[u8]) -> Range
    ensures { result ≡ spec.whole_of text.now }
{
    Range {
        start: Position { line: 0, column: 0 },
        end: position_of(text, text.len()),
    }
}

// The edit that gives a text another one, if it is another and is UTF-8.
fn layout_edit(text: &[u8], laid: Vec<u8>) -> Option<LayoutEdit>
    ensures { option_map layout_seen result ≡ layout_edit text.now laid.items }
{
    if laid.as_slice() == text {
        return None;
    }
    match utf8_of(laid) {
        Some(new) => Some(LayoutEdit {
            range: whole_of(text),
            text: new,
        }),
        None => None,
    }
}

/// The edit that gives a document the layout of `ti-fmt`, in lines of 80 columns, with the line ends
/// and the byte order mark that it has; `None` if it has that layout, or would not be UTF-8 then.
///
/// # Errors
/// Out of memory.
pub fn layout_of(alloc: Global, document: &Document) -> Result<Option<LayoutEdit>, AllocError>
    ensures { IfOk result (λ edit. option_map layout_seen edit ≡ spec.layout_of document.now) }
{
    let text = document.text();
    let laid = formatted_source(alloc, COLUMNS, text)?;
    Ok(layout_edit(text, laid))
}

/// A law, with no code: a document that begins with a character has that layout once the client has
/// made the edit.
pub fn edits_lay_out()
    ensures { spec.EditsLayOut }
{
    source_places::laws::positions_are_inverse();
}
