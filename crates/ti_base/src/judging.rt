//! Whether an edit is refused, and why.
ghost use Rattle.std.specs.Prelude.{IfErr, OnOk};
ghost use Rattle.base_slots.specs.Slots.{slot_texts};
ghost use Rattle.base_meaning.specs.Edits.{change_of, IsRefusal, IsSoundEdit};

use crate::texts::check_text;
use base_meaning::{Edit, EditError};
use base_slots::Slots;
use ti_text::limits::BLOCKS_MAX;

/// Whether nothing is wrong with an edit of the list; if something is, the first cause that holds.
/// It takes no memory.
pub(crate) fn judge(slots: &Slots, edit: &Edit<'_>) -> Result<(), EditError>
    ensures ok { OnOk result (IsSoundEdit (slot_texts slots.now) (change_of edit.now)) }
    ensures err { IfErr result (IsRefusal (slot_texts slots.now) (change_of edit.now)) }
{
    let count = slots.len();
    match *edit {
        Edit::Insert { at, text } => {
            if at > count {
                return Err(EditError::Position);
            }
            check_text(text)?;
            if count >= BLOCKS_MAX {
                return Err(EditError::TooMany);
            }
        }
        Edit::Replace { at, text } => {
            if at >= count {
                return Err(EditError::Position);
            }
            check_text(text)?;
        }
        Edit::Remove { at } => {
            if at >= count {
                return Err(EditError::Position);
            }
        }
        Edit::Relocate { from, to } => {
            if from >= count || to >= count {
                return Err(EditError::Position);
            }
        }
    }
    Ok(())
}
