//! An edit without the bytes that it leaves as they are.
ghost use Rattle.std.specs.Prelude.{◌≡◌, ◌≤◌, ◌<◌, ◌^◌, All, IfOk, length};
ghost use Rattle.std.specs.String.{string_bytes};
ghost use Rattle.ti_source.specs.Items.{bytes};
ghost use Rattle.source_edits.specs.Edits.{edit_seen};
ghost use Rattle.source_edits.specs.Narrowing as spec;
ghost use Rattle.source_edits.specs.Narrowing.{back_size, begins_visible, exchange_seen, front_size, shared, without_back, without_front, without_same};

use crate::edits::Edit;
use crate::pieces::{bytes_in, span};
use crate::texts::shown;
use std::alloc::{AllocError, Global};
use ti_text::is_white_space;

// Bytes of an item, and what takes their place.
#[derive(Clone, Copy)]
struct Exchange<'a> {
    old: &'a [(u8, usize)],
    new: &'a [u8],
}

// Whether a text begins with a byte that is no white space.
fn begins_visible(text: &[u8]) -> bool
    ensures { result ≡ begins_visible text.now }
{
    match text.first() {
        Some(byte) => !is_white_space(*byte),
        None => false,
    }
}

// With how many bytes both begin, if one of each is to be left.
fn shared(old: &[(u8, usize)], new: &[u8]) -> usize
    ensures count { result ≡ shared (bytes old.now) new.now }
    ensures old { result ≤ length old.now }
    ensures new { result ≤ length new.now }
{
    let most = old.len().min(new.len()).saturating_sub(1);
    for at in 0..most {
        if old[at].0 != new[at] {
            return at;
        }
    }
    most
}

// With how many bytes both end, if one of each is to be left.
fn back_size(e: &Exchange<'_>) -> usize
    ensures count { result ≡ back_size (exchange_seen e.now) }
    ensures old { result ≤ length e.now.old.now }
    ensures new { result ≤ length e.now.new.now }
{
    let most = e.old.len().min(e.new.len()).saturating_sub(1);
    for count in 0..most {
        if e.old[e.old.len() - 1 - count].0 != e.new[e.new.len() - 1 - count] {
            return count;
        }
    }
    most
}

// Both without the bytes with which they begin alike, if what is left of the new ones begins with
// no white space.
fn without_front<'a>(e: &Exchange<'a>) -> Exchange<'a>
    ensures seen { exchange_seen result ≡ without_front (exchange_seen e.now) }
    ensures offsets { All (λ x. x.1 < 2 ^ 63) e.now.old.now → All (λ x. x.1 < 2 ^ 63) result.old.now }
{
    let count = shared(e.old, e.new);
    if !begins_visible(&e.new[count..]) {
        return *e;
    }
    Exchange {
        old: &e.old[count..],
        new: &e.new[count..],
    }
}

// Both without the bytes with which they end alike.
fn without_back<'a>(e: &Exchange<'a>) -> Exchange<'a>
    ensures seen { exchange_seen result ≡ without_back (exchange_seen e.now) }
    ensures offsets { All (λ x. x.1 < 2 ^ 63) e.now.old.now → All (λ x. x.1 < 2 ^ 63) result.old.now }
{
    let count = back_size(e);
    Exchange {
        old: &e.old[..e.old.len() - count],
        new: &e.new[..e.new.len() - count],
    }
}

/// An edit of a block with this folded text, without the bytes that it leaves as they are.
///
/// # Errors
/// Out of memory.
pub fn narrowed(alloc: Global, text: &[(u8, usize)], edit: Edit) -> Result<Edit, AllocError>
    requires { All (λ x. x.1 < 2 ^ 63) text.now }
    ensures { IfOk result (λ found. edit_seen found ≡ spec.narrowed text.now (edit_seen edit)) }
{
    let bytes = bytes_in(alloc, edit.part, text)?;
    let whole = Exchange {
        old: &bytes,
        new: edit.text.as_bytes(),
    };
    let left = without_back(&without_front(&whole));
    let Some(part) = span(left.old) else {
        return Ok(edit);
    };
    let text = shown(alloc, left.new)?;
    Ok(Edit {
        advice: edit.advice,
        part,
        text,
    })
}
