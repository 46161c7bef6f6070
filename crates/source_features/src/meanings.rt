//! What an item says, as it is read.
ghost use Rattle.std.specs.Prelude.{◌≡◌, ◌<◌, ◌^◌, All, IfOk, Some, map, option_map};
ghost use Rattle.ti_source.specs.Cutting.{OneBlock};
ghost use Rattle.ti_source.specs.Reading.{item_of, said_of};
ghost use Rattle.source_spans.specs.Folding.{folded_of};
ghost use Rattle.source_features.specs.Meanings as spec;
ghost use Rattle.source_features.specs.Meanings.{meaning_seen, said_at};

use source_spans::ordinal_in;
use source_strings::spelled;
use std::alloc::{AllocError, Global};
use ti_source::{Item, What, parse};

/// What an item says of its capability.
#[derive(Debug, Drop)]
pub enum Meaning {
    /// Nothing, since it is not accepted.
    Nothing,
    /// The boolean is set.
    Set,
    /// The number has this value.
    Number(u32),
    /// The string has the bytes that are spelled so, in ASCII.
    Text(String),
    /// The capability is cancelled.
    Cancelled,
}

/// What the accepted item of that place among the items says.
pub(crate) fn said_at(items: &[Item], ordinal: usize) -> Option<&What>
    ensures { option_map (λ what. said_of what.now) result ≡ said_at ordinal (map item_of items.now) }
{
    for item in items {
        if item.ordinal == ordinal {
            return Some(&item.what);
        }
    }
    None
}

// What an accepted item means.
fn meaning_of(alloc: Global, what: &What) -> Result<Meaning, AllocError>
    ensures { IfOk result (λ found. meaning_seen found ≡ spec.meaning_of (Some (said_of what.now))) }
{
    match what {
        What::Flag(_) => Ok(Meaning::Set),
        What::Number(_, number) => Ok(Meaning::Number(*number)),
        What::Text(_, value) => Ok(Meaning::Text(spelled(alloc, value.as_slice())?)),
        What::Cancel(_) => Ok(Meaning::Cancelled),
        What::Import(_) => Ok(Meaning::Nothing),
    }
}

// What the item of that place in a block means.
fn meaning_in(alloc: Global, block: &[u8], ordinal: usize) -> Result<Meaning, AllocError>
    requires { OneBlock block.now }
    ensures { IfOk result (λ found. meaning_seen found ≡ spec.meaning_of (spec.saying_of block.now ordinal)) }
{
    let parsed = parse(alloc, block)?;
    match said_at(&parsed.items, ordinal) {
        Some(what) => meaning_of(alloc, what),
        None => Ok(Meaning::Nothing),
    }
}

/// What the item that an offset of a block with this folded text is on means.
pub(crate) fn meaning_at(
    alloc: Global,
    block: &[u8],
    text: &[(u8, usize)],
    offset: usize,
) -> Result<Meaning, AllocError>
    requires one { OneBlock block.now }
    requires offsets { All (λ x. x.1 < 2 ^ 63) text.now }
    requires folded { text.now ≡ folded_of block.now }
    ensures { IfOk result (λ found. meaning_seen found ≡ spec.meaning_at block.now offset) }
{
    match ordinal_in(alloc, text, offset)? {
        Some(ordinal) => meaning_in(alloc, block, ordinal),
        None => Ok(Meaning::Nothing),
    }
}
