//! What an item of a user-defined name says, as it is read.
ghost use Rattle.std.specs.Prelude.{◌≡◌, ◌<◌, ◌^◌, All, IfOk, Some, map, option_map};
ghost use Rattle.ti_layout.specs.Values.{content_of};
ghost use Rattle.user_items.specs.Reading.{said_of, user_item_of};
ghost use Rattle.source_spans.specs.Folding.{folded_of};
ghost use Rattle.source_features.specs.Meanings.{meaning_seen};
ghost use Rattle.source_features.specs.UserMeanings as spec;
ghost use Rattle.source_features.specs.UserMeanings.{content_meaning, user_said_at};

use crate::meanings::Meaning;
use source_spans::ordinal_in;
use source_strings::spelled;
use std::alloc::{AllocError, Global};
use ti_layout::Value;
use user_items::{UserItem, UserWhat, user_items};

// What the accepted item of that place among the items says.
fn user_said_at(items: &[UserItem], ordinal: usize) -> Option<&UserWhat>
    ensures { option_map (λ what. said_of what.now) result ≡ user_said_at ordinal (map user_item_of items.now) }
{
    for item in items {
        if item.ordinal == ordinal {
            return Some(&item.what);
        }
    }
    None
}

// What a value means.
fn value_meaning(alloc: Global, value: &Value) -> Result<Meaning, AllocError>
    ensures { IfOk result (λ found. meaning_seen found ≡ content_meaning (content_of value.now)) }
{
    match value {
        Value::True => Ok(Meaning::Set),
        Value::Number(number) => Ok(Meaning::Number(*number)),
        Value::Text(text) => Ok(Meaning::Text(spelled(alloc, text.as_slice())?)),
        Value::Cancelled => Ok(Meaning::Cancelled),
    }
}

// What an accepted item means.
fn user_meaning_of(alloc: Global, what: &UserWhat) -> Result<Meaning, AllocError>
    ensures { IfOk result (λ found. meaning_seen found ≡ spec.user_meaning_of (Some (said_of what.now))) }
{
    match what {
        UserWhat::Says(_, value) => value_meaning(alloc, value),
        UserWhat::Import(_) => Ok(Meaning::Nothing),
    }
}

// What the item of that place in a block means.
fn user_meaning_in(alloc: Global, block: &[u8], ordinal: usize) -> Result<Meaning, AllocError>
    ensures { IfOk result (λ found. meaning_seen found ≡ spec.user_meaning_of (spec.user_saying_of block.now ordinal)) }
{
    let read = user_items(alloc, block)?;
    match user_said_at(&read.items, ordinal) {
        Some(what) => user_meaning_of(alloc, what),
        None => Ok(Meaning::Nothing),
    }
}

/// What the item that an offset of a block with this folded text is on says of a user-defined name.
pub(crate) fn user_meaning_at(
    alloc: Global,
    block: &[u8],
    text: &[(u8, usize)],
    offset: usize,
) -> Result<Meaning, AllocError>
    requires offsets { All (λ x. x.1 < 2 ^ 63) text.now }
    requires folded { text.now ≡ folded_of block.now }
    ensures { IfOk result (λ found. meaning_seen found ≡ spec.user_meaning_at block.now offset) }
{
    match ordinal_in(alloc, text, offset)? {
        Some(ordinal) => user_meaning_in(alloc, block, ordinal),
        None => Ok(Meaning::Nothing),
    }
}
