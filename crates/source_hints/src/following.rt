//! Items that say a capability after a `use=`.
ghost use Rattle.std.specs.Prelude.{◌≡◌, ◌^◌, ◌<◌, ◌&&◌, All, IfOk, false, is_some, map};
ghost use Rattle.ti_source.specs.Stating.{statement_of};
ghost use Rattle.source_spans.specs.Parts.{IsWithin, part_of};
ghost use Rattle.source_hints.specs.Following as spec;
ghost use Rattle.source_block_hints.specs.Mentions.{mention_in};

use source_block_hints::{mention_in, text_of};
use source_spans::{Part, folded, visible_items};
use std::alloc::{AllocError, Global};
use ti_source::{Claim, statement_of};

// Whether the text of an item is a use.
fn is_use(text: &[u8]) -> bool
    ensures { result ≡ spec.states_use (statement_of text.now) }
{
    match statement_of(text) {
        Some(statement) => {
            matches!(statement.claim, Claim::Text(_)) && statement.name == b"use".as_slice()
        }
        None => false,
    }
}

// Whether the text of an item says a capability, if a use is before it.
fn says_there(used: bool, text: &[u8]) -> bool
    ensures { result ≡ (used && is_some (mention_in text.now)) }
{
    used && mention_in(text).is_some()
}

// Whether one of the items of a folded text says a capability after a use.
fn says_after(alloc: Global, text: &[(u8, usize)], items: &[Part]) -> Result<bool, AllocError>
    requires within { All (IsWithin text.now) items.now }
    ensures { IfOk result (λ found. found ≡ spec.says_after false (map (part_of text.now) items.now)) }
{
    let mut used = false;
    for at in 0..items.len() {
        let part = items[at];
        let item = text_of(alloc, &text[part.start..part.end])?;
        if says_there(used, &item) {
            return Ok(true);
        }
        used = used || is_use(&item);
    }
    Ok(false)
}

/// Whether an item of a block says a capability after a `use=`. Only such a block has hints by
/// [`hints_after_uses`](crate::hints_after_uses).
///
/// # Errors
/// Out of memory.
#[tactic(auto, unfolding(crate::specs::Following::says_after_use))]
pub fn says_after_use(alloc: Global, block: &[u8]) -> Result<bool, AllocError>
    ensures { IfOk result (λ found. found ≡ spec.says_after_use block.now) }
{
    let text = folded(alloc, block)?;
    let items = visible_items(alloc, &text)?;
    says_after(alloc, &text, &items)
}
