//! A head that holds an item.
ghost use Rattle.std.specs.Prelude.{◌≡◌, ◌==◌, ◌+◌, None};
ghost use Rattle.ti_source.specs.Items.{bytes};
ghost use Rattle.source_block_hints.specs.Heads as spec;

use crate::found::{Found, rest_of};
use crate::hint::HintKind;
use crate::mentions::mention_in;
use source_spans::Part;

// Where the byte after the last bar of a names field is.
fn after_bar(field: &[(u8, usize)]) -> Option<usize>
    ensures { result ≡ spec.after_bar None 0 field.now }
{
    let mut found = None;
    let mut at = 0;
    let mut rest = field;
    while let Some((placed, after)) = rest.split_first() {
        at += 1;
        if placed.0 == b'|' {
            found = Some(at);
        }
        rest = after;
    }
    found
}

// Whether an offset is just after another.
fn is_next(last: usize, at: usize) -> bool
    ensures { result ≡ (at == last + 1) }
{
    at > last && at - last == 1
}

// Where a names field goes on after a line break.
fn broken_at(field: &[(u8, usize)]) -> Option<usize>
    ensures { result ≡ spec.broken_at field.now }
{
    let (first, lines) = field.split_first()?;
    let mut last = first.1;
    let mut at = 1;
    let mut rest = lines;
    while let Some((placed, after)) = rest.split_first() {
        if !is_next(last, placed.1) {
            return Some(at);
        }
        last = placed.1;
        at += 1;
        rest = after;
    }
    None
}

// The item that a names field of this text holds from an offset on.
fn item_from(text: &[u8], at: Option<usize>) -> Option<Found>
    ensures { result ≡ spec.item_from text.now at }
{
    let at = at?;
    mention_in(rest_of(text, at))?;
    Some(Found {
        kind: HintKind::ItemsInHead,
        part: Part {
            start: at,
            end: text.len(),
        },
    })
}

/// The item that a names field holds: on a line after its first, or after its last bar. `text` is
/// its bytes.
pub(crate) fn head_found(field: &[(u8, usize)], text: &[u8]) -> Option<Found>
    requires { text.now ≡ bytes field.now }
    ensures { result ≡ spec.head_found field.now }
{
    match item_from(text, broken_at(field)) {
        Some(found) => Some(found),
        None => item_from(text, after_bar(field)),
    }
}
