//! A text with changes made to it.
ghost use Rattle.std.specs.Prelude.{◌≡◌, ◌≤◌, IfOk, length, map};
ghost use Rattle.lsp_messages.specs.Views.{edit_view};
ghost use Rattle.lsp_server.specs.Steps.{edited, send_whole, with_part, with_range};

use crate::source::HeldText;
use lsp_messages::Change;
use source_types::Range;
use std::alloc::{AllocError, Global};

// A text whose bytes from `start` to before `end` are exchanged. An end before the start is the
// start.
fn with_part(
    alloc: Global,
    text: &[u8],
    start: usize,
    end: usize,
    new: &[u8],
) -> Result<Vec<u8>, AllocError>
    requires { start ≤ length text.now }
    ensures { IfOk result (λ all. all.items ≡ with_part text.now start end new.now) }
{
    let back = start.max(end).min(text.len());
    let mut all = Vec::with_capacity(alloc, start + new.len() + (text.len() - back))?;
    all.extend_from_slice(&text[..start])?;
    all.extend_from_slice(new)?;
    all.extend_from_slice(&text[back..])?;
    Ok(all)
}

// A text after one change.
fn with_range<D: HeldText>(
    alloc: Global,
    text: &[u8],
    range: Option<Range>,
    new: &[u8],
) -> Result<Vec<u8>, AllocError>
    ensures { IfOk result (λ all. all.items ≡ with_range D.place_in text.now range new.now) }
{
    match range {
        None => Vec::from_slice(alloc, new),
        Some(range) => {
            let start = D::offset_of(text, range.start);
            let end = D::offset_of(text, range.end);
            with_part(alloc, text, start, end, new)
        }
    }
}

// A text after changes, in order.
fn edited_by<D: HeldText>(
    alloc: Global,
    text: Vec<u8>,
    changes: &[Change<'_>],
) -> Result<Vec<u8>, AllocError>
    ensures { IfOk result (λ all. all.items ≡ edited D.place_in text.items (map edit_view changes.now)) }
{
    let mut all = text;
    for change in changes {
        all = with_range::<D>(alloc, &all, change.range, change.text.as_bytes())?;
    }
    Ok(all)
}

/// Whether one of some changes sends the whole text.
pub fn send_whole(changes: &[Change<'_>]) -> bool
    ensures { result ≡ send_whole (map edit_view changes.now) }
{
    for change in changes {
        if change.range.is_none() {
            return true;
        }
    }
    false
}

/// A text after changes, in order: each is one of the text that the ones before made.
///
/// # Errors
/// Out of memory.
pub fn edited<D: HeldText>(
    alloc: Global,
    text: &[u8],
    changes: &[Change<'_>],
) -> Result<Vec<u8>, AllocError>
    ensures { IfOk result (λ all. all.items ≡ edited D.place_in text.now (map edit_view changes.now)) }
{
    match changes.split_first() {
        None => Vec::from_slice(alloc, text),
        Some((first, others)) => {
            let made = with_range::<D>(alloc, text, first.range, first.text.as_bytes())?;
            edited_by::<D>(alloc, made, others)
        }
    }
}
