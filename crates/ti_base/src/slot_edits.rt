//! Edits of a settled list: the blocks exchanged, what depends on that rebuilt, and all taken back
//! if memory is refused.
ghost use Rattle.std.specs.Prelude.{◌≡◌, IfOk, OnErr, OnOk};
ghost use Rattle.base_meaning.specs.Edits.{IsSoundEdit, change_of, list_after};
ghost use Rattle.base_meaning.specs.Dependents.{RebuildsBy};
ghost use Rattle.base_slots.specs.Slots.{slot_texts};
ghost use Rattle.ti_base.specs.inside.Database.{AreKept, HaveRule};

use crate::exchange::{forget, make, read_new, undo};
use crate::rebuilding::rebuild;
use base_meaning::{Edit, Edited};
use base_slots::Slots;
use std::alloc::{AllocError, Global};
use ti_source::Rule;

/// Makes an edit that nothing is wrong with, of a list that is read by the rule. At an error the
/// list is as before.
pub(crate) fn edit_sound(
    alloc: Global,
    rule: Rule,
    slots: &mut Slots,
    edit: &Edit<'_>,
) -> Result<Edited, AllocError>
    requires kept { AreKept slots.old }
    requires ruled { HaveRule rule slots.old }
    requires sound { IsSoundEdit (slot_texts slots.old) (change_of edit.now) }
    ensures kept { AreKept slots.new }
    ensures ruled { HaveRule rule slots.new }
    ensures texts { OnOk result (slot_texts slots.new ≡ list_after (slot_texts slots.old) (change_of edit.now)) }
    ensures rebuilds { IfOk result (λ e. RebuildsBy rule (slot_texts slots.old) (change_of edit.now) e.rebuilt.items e.work) }
    ensures err { OnErr result (slot_texts slots.new ≡ slot_texts slots.old) }
{
    let mut spare = read_new(alloc, rule, slots, None, edit)?;
    let id = make(slots, edit, &mut spare);
    match rebuild(alloc, slots, id, &spare) {
        Ok(edited) => {
            forget(slots, &spare);
            Ok(edited)
        }
        Err(error) => {
            undo(slots, edit, &mut spare);
            forget(slots, &spare);
            Err(error)
        }
    }
}
