//! Texts of blocks: which of them are refused, and a text read into a slot.
ghost use Rattle.std.specs.Prelude.{◌≡◌, IfOk, IfErr, OnOk};
ghost use Rattle.ti_source.specs.Reading.{reading_of};
ghost use Rattle.ti_source.specs.Sound.{IsWellRead};
ghost use Rattle.ti_source.specs.Parsing.{reading_of_text};
ghost use Rattle.ti_base.specs.inside.Texts.{IsBlockText, IsTextRefusal};
ghost use Rattle.ti_base.specs.inside.Database.{HasRule, IsSoundSlot};

use base_meaning::EditError;
use base_slots::{Settled, Slot, State};
use std::alloc::{AllocError, Global};
use ti_source::{Parsed, Rule, SharedTexts, is_block, parse, parse_sharing};
use ti_text::limits::BLOCK_BYTES_MAX;

/// The text of a block within the limit, copied, with the block as it is read by the rule; nothing
/// is found out about it yet. If there are texts of capabilities that were read before, they are
/// shared.
pub(crate) fn read_slot(
    alloc: Global,
    rule: Rule,
    text: &[u8],
    shared: Option<&mut SharedTexts>,
) -> Result<Slot, AllocError>
    requires { IsBlockText text.now }
    ensures text { IfOk result (λ slot. slot.text.items ≡ text.now) }
    ensures sound { IfOk result IsSoundSlot }
    ensures ruled { IfOk result (HasRule rule) }
{
    let block = match shared {
        Some(shared) => parse_sharing(alloc, text, shared)?,
        None => parse(alloc, text)?,
    };
    slot_of(alloc, rule, text, block)
}

// The slot of a text and of the block that it is read as, by the rule.
fn slot_of(alloc: Global, rule: Rule, text: &[u8], block: Parsed) -> Result<Slot, AllocError>
    requires text { IsBlockText text.now }
    requires computed { reading_of block ≡ reading_of_text text.now }
    requires sound { IsWellRead text.now (reading_of block) }
    ensures text { IfOk result (λ slot. slot.text.items ≡ text.now) }
    ensures sound { IfOk result IsSoundSlot }
    ensures ruled { IfOk result (HasRule rule) }
{
    let text = Vec::from_slice(alloc, text)?;
    let settled = Settled {
        state: State::Unresolved,
        faults: Vec::new(alloc),
    };
    Ok(Slot {
        text,
        block: Parsed { rule, ..block },
        settled,
    })
}

/// Refuses a text that is too long, or no single block.
pub(crate) fn check_text(text: &[u8]) -> Result<(), EditError>
    ensures ok { OnOk result (IsBlockText text.now) }
    ensures err { IfErr result (IsTextRefusal text.now) }
{
    if text.len() > BLOCK_BYTES_MAX {
        return Err(EditError::TooLong);
    }
    if !is_block(text) {
        return Err(EditError::NotOneBlock);
    }
    Ok(())
}
