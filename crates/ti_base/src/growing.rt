//! A list that edits make with nothing found out about its blocks in between: all edits change the
//! list, and then what there is to find out about the last list is found once.
ghost use Rattle.std.specs.Prelude.{◌≡◌, ◌≤◌, [], IfOk, OnErr, OnOk, length, map, vec_capacity};
ghost use Rattle.base_meaning.specs.Edits.{EditRun, EditStep, IsSoundEdit, change_of, list_after};
ghost use Rattle.base_slots.specs.Slots.{slot_texts};
ghost use Rattle.ti_base.specs.inside.Database.{AreKept, AreRead, HaveRule};

use crate::exchange::{forget, make, read_new};
use crate::judging::judge;
use crate::rebuilding::rebuild_all;
use base_meaning::{Edit, EditError, Outcome};
use base_slots::Slots;
use std::alloc::{AllocError, Global};
use ti_source::{Rule, SharedTexts};

// Changes the list as an edit says that nothing is wrong with. At an error it is as before.
fn change_sound(
    alloc: Global,
    rule: Rule,
    slots: &mut Slots,
    shared: &mut SharedTexts,
    edit: &Edit<'_>,
) -> Result<(), AllocError>
    requires read { AreRead slots.old }
    requires ruled { HaveRule rule slots.old }
    requires sound { IsSoundEdit (slot_texts slots.old) (change_of edit.now) }
    ensures read { AreRead slots.new }
    ensures ruled { HaveRule rule slots.new }
    ensures ok { OnOk result (slot_texts slots.new ≡ list_after (slot_texts slots.old) (change_of edit.now)) }
    ensures err { OnErr result (slot_texts slots.new ≡ slot_texts slots.old) }
{
    let mut spare = read_new(alloc, rule, slots, Some(shared), edit)?;
    make(slots, edit, &mut spare);
    forget(slots, &spare);
    Ok(())
}

// Changes the list as an edit says, or refuses the edit; then the list is as before.
fn change(
    alloc: Global,
    rule: Rule,
    slots: &mut Slots,
    shared: &mut SharedTexts,
    edit: &Edit<'_>,
) -> Outcome
    requires read { AreRead slots.old }
    requires ruled { HaveRule rule slots.old }
    ensures read { AreRead slots.new }
    ensures ruled { HaveRule rule slots.new }
    ensures step { EditStep (slot_texts slots.old) (change_of edit.now) result (slot_texts slots.new) }
{
    if let Err(error) = judge(slots, edit) {
        return Outcome::Refused(error);
    }
    match change_sound(alloc, rule, slots, shared, edit) {
        Ok(()) => Outcome::Accepted,
        Err(_) => Outcome::Refused(EditError::Memory),
    }
}

// Makes all edits in order, with nothing found out in between. An error says that no edit was
// made.
fn change_all(
    alloc: Global,
    rule: Rule,
    slots: &mut Slots,
    edits: &[Edit<'_>],
    outcomes: &mut Vec<Outcome>,
) -> Result<(), AllocError>
    requires none { slot_texts slots.old ≡ [] }
    requires read { AreRead slots.old }
    requires ruled { HaveRule rule slots.old }
    requires empty { outcomes.old.items ≡ [] }
    requires room { length edits.now ≤ vec_capacity outcomes.old }
    ensures capacity { vec_capacity outcomes.new ≡ vec_capacity outcomes.old }
    ensures read { AreRead slots.new }
    ensures ruled { HaveRule rule slots.new }
    ensures run { OnOk result (EditRun [] (map change_of edits.now) outcomes.new.items (slot_texts slots.new)) }
{
    let mut shared = SharedTexts::new(alloc)?;
    for edit in edits {
        outcomes.push_reserved(change(alloc, rule, slots, &mut shared, edit));
    }
    Ok(())
}

/// The slots that the edits make of no blocks, each block read by the rule, settled once after the
/// last of them. An edit that memory was refused for is refused so; an error says that memory was
/// refused for the whole.
pub(crate) fn run_at_once(
    alloc: Global,
    rule: Rule,
    edits: &[Edit<'_>],
    outcomes: &mut Vec<Outcome>,
) -> Result<Slots, AllocError>
    requires empty { outcomes.old.items ≡ [] }
    requires room { length edits.now ≤ vec_capacity outcomes.old }
    ensures capacity { vec_capacity outcomes.new ≡ vec_capacity outcomes.old }
    ensures kept { IfOk result AreKept }
    ensures ruled { IfOk result (HaveRule rule) }
    ensures run { IfOk result (λ slots. EditRun [] (map change_of edits.now) outcomes.new.items (slot_texts slots)) }
{
    let mut slots = Slots::new(alloc);
    change_all(alloc, rule, &mut slots, edits, outcomes)?;
    rebuild_all(alloc, &mut slots)?;
    Ok(slots)
}
