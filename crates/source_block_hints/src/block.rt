//! The hints on a block: what its head and its items say.
ghost use Rattle.std.specs.Prelude.{◌≡◌, ◌^◌, ◌++◌, ◌<◌, ◌≤◌, All, IfOk, OnOk, [], ℕ, map, option_to_list};
ghost use Rattle.ti_source.specs.Items.{bytes};
ghost use Rattle.ti_source.specs.Stating.{claim_seen, statement_seen};
ghost use Rattle.source_spans.specs.Parts.{IsWithin, part_of, field_of};
ghost use Rattle.source_block_hints.specs.Blocks as spec;
ghost use Rattle.source_block_hints.specs.Mentions.{has, mention_of, number_said};

use crate::commas::{broken_from, name_from};
use crate::delays::delay_from;
use crate::formats::push_format;
use crate::found::{Found, push_found, push_hints, rest_of};
use crate::heads::head_found;
use crate::hint::{Hint, HintKind};
use crate::mentions::{is_among, mention_of, note, number_said};
use source_spans::{Part, field_len, folded, visible_items};
use std::alloc::{AllocError, Global};
use ti_source::{Claim, Statement, statement_of};

/// The bytes of a part of a folded text.
///
/// # Errors
/// Out of memory.
pub fn text_of(alloc: Global, item: &[(u8, usize)]) -> Result<Vec<u8>, AllocError>
    ensures { IfOk result (λ text. text.items ≡ bytes item.now) }
{
    let mut text = Vec::with_capacity(alloc, item.len())?;
    for placed in item {
        text.push(placed.0)?;
    }
    Ok(text)
}

// What is wrong with the format of the string of that index, if it begins at this offset of its item.
fn push_claim(
    alloc: Global,
    found: &mut Vec<Found>,
    index: usize,
    text: &[u8],
    at: usize,
    claim: &Claim<'_>,
) -> Result<(), AllocError>
    requires { at ≤ 2 ^ 63 }
    ensures { OnOk result (found.new.items ≡ found.old.items ++ spec.claim_found index text.now at (claim_seen claim.now)) }
{
    match claim {
        Claim::Text(_) => push_format(alloc, found, index, at, rest_of(text, at)),
        _ => Ok(()),
    }
}

// A capability of this name that an item before says.
fn push_twice(found: &mut Vec<Found>, again: bool, name: &[u8]) -> Result<(), AllocError>
    ensures { OnOk result (found.new.items ≡ found.old.items ++ spec.twice_found again name.now) }
{
    if again {
        found.push(Found {
            kind: HintKind::SaidTwice,
            part: Part {
                start: 0,
                end: name.len(),
            },
        })?;
    }
    Ok(())
}

// What is found in the value of a string, which begins at this offset of its item.
fn push_value(
    found: &mut Vec<Found>,
    text: &[u8],
    at: usize,
    claim: &Claim<'_>,
) -> Result<(), AllocError>
    requires { at ≤ 2 ^ 63 }
    ensures { OnOk result (found.new.items ≡ found.old.items ++ spec.value_found text.now at (claim_seen claim.now)) }
{
    match claim {
        Claim::Text(_) => {
            push_found(found, name_from(rest_of(text, at + 1), at + 1))?;
            push_found(found, delay_from(rest_of(text, at), at))
        }
        _ => Ok(()),
    }
}

// What is found in an item by what it states.
fn push_statement(
    alloc: Global,
    found: &mut Vec<Found>,
    again: bool,
    text: &[u8],
    item: &[(u8, usize)],
    statement: &Statement<'_>,
) -> Result<(), AllocError>
    requires { All (λ x. x.1 < 2 ^ 63) item.now }
    ensures { OnOk result (found.new.items ≡ found.old.items
        ++ spec.mention_found again text.now item.now (statement_seen statement.now) (mention_of (statement_seen statement.now))) }
{
    let Some(cap) = mention_of(statement) else {
        return push_found(found, broken_from(text, item));
    };
    let at = statement.name.len() + 1;
    push_claim(alloc, found, cap.index(), text, at, &statement.claim)?;
    push_twice(found, again, statement.name)?;
    push_value(found, text, at, &statement.claim)
}

// What is found in an item of this text.
fn found_in(
    alloc: Global,
    again: bool,
    text: &[u8],
    item: &[(u8, usize)],
) -> Result<Vec<Found>, AllocError>
    requires { All (λ x. x.1 < 2 ^ 63) item.now }
    ensures { IfOk result (λ found. found.items ≡ spec.found_in again text.now item.now) }
{
    let mut found = Vec::new(alloc);
    if let Some(statement) = statement_of(text) {
        push_statement(alloc, &mut found, again, text, item, &statement)?;
    }
    Ok(found)
}

// Appends the hints on an item, if items before it say the capabilities of these numbers, and notes
// what it says.
fn push_item(
    alloc: Global,
    hints: &mut Vec<Hint>,
    said: &mut Vec<usize>,
    item: &[(u8, usize)],
) -> Result<(), AllocError>
    requires { All (λ x. x.1 < 2 ^ 63) item.now }
    ensures hints { OnOk result (hints.new.items ≡ hints.old.items
        ++ spec.item_hints said.old.items item.now) }
    ensures said { OnOk result ((n : ℕ) → has n said.new.items
        ≡ has n (said.old.items ++ option_to_list (number_said (bytes item.now)))) }
{
    let text = text_of(alloc, item)?;
    let number = number_said(&text);
    let found = found_in(alloc, is_among(said, number), &text, item)?;
    push_hints(hints, item, &found)?;
    note(said, number)
}

// Appends the hints on the items of a block.
fn push_items(
    alloc: Global,
    hints: &mut Vec<Hint>,
    text: &[(u8, usize)],
    items: &[Part],
) -> Result<(), AllocError>
    requires within { All (IsWithin text.now) items.now }
    requires offsets { All (λ x. x.1 < 2 ^ 63) text.now }
    ensures { OnOk result (hints.new.items ≡ hints.old.items ++ spec.hints_after [] (map (part_of text.now) items.now)) }
{
    let mut said = Vec::new(alloc);
    for at in 0..items.len() {
        let part = items[at];
        push_item(alloc, hints, &mut said, &text[part.start..part.end])?;
    }
    Ok(())
}

// Appends the hint on the names field of a folded text.
fn push_head(alloc: Global, hints: &mut Vec<Hint>, text: &[(u8, usize)]) -> Result<(), AllocError>
    requires { All (λ x. x.1 < 2 ^ 63) text.now }
    ensures { OnOk result (hints.new.items ≡ hints.old.items ++ spec.head_hints (field_of text.now)) }
{
    let field = &text[..field_len(text)];
    let bytes = text_of(alloc, field)?;
    let mut found = Vec::new(alloc);
    push_found(&mut found, head_found(field, &bytes))?;
    push_hints(hints, field, &found)
}

/// The hints on a block, by its text alone: on its head, then on its items in their order, and on
/// one item in the order of [`HintKind`].
///
/// # Errors
/// Out of memory.
#[tactic(auto, unfolding(crate::specs::Blocks::block_hints))]
pub fn hints_of_block(alloc: Global, block: &[u8]) -> Result<Vec<Hint>, AllocError>
    ensures { IfOk result (λ hints. hints.items ≡ spec.block_hints block.now) }
{
    let text = folded(alloc, block)?;
    let items = visible_items(alloc, &text)?;
    let mut hints = Vec::new(alloc);
    push_head(alloc, &mut hints, &text)?;
    push_items(alloc, &mut hints, &text, &items)?;
    Ok(hints)
}
