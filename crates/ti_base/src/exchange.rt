//! An edit of a list as an exchange: at most one block is taken out, and at most one is put in. A
//! block that moves is both.
ghost use Rattle.std.specs.Prelude.{◌≡◌, ◌<◌, IfOk, IfSome, OnErr, OnOk, length, map, option_map};
ghost use Rattle.std.specs.Rc.{rc_slice_items};
ghost use Rattle.ti_source.specs.Reading.{reading_of};
ghost use Rattle.base_meaning.specs.Edits.{IsSoundEdit, change_of};
ghost use Rattle.base_slots.specs.Slots.{slot_texts, slots_of};
ghost use Rattle.base_slots.specs.Changes.{HasForgotten, HasRoomFor};
ghost use Rattle.ti_base.specs.inside.Database.{AreRead, HasRule};
ghost use Rattle.ti_base.specs.inside.Exchanges.{CanExchange, CanUndo, IsEdited, IsEditedByRule, IsExchanged, IsMade, IsNewOf, IsOut, IsUndone, names_seen, new_text, out_position, put_position, slot_left, slot_put};

use crate::texts::read_slot;
use base_meaning::Edit;
use base_slots::{BlockEntry, Slot, Slots};
use std::alloc::{AllocError, Global};
use std::rc::RcSlice;
use ti_source::{Parsed, Rule, SharedTexts};

// The position from which an edit takes a block out, and the one at which it puts one in.
fn positions(edit: &Edit<'_>) -> (Option<usize>, Option<usize>)
    ensures out { result.0 ≡ out_position (change_of edit.now) }
    ensures put { result.1 ≡ put_position (change_of edit.now) }
{
    match *edit {
        Edit::Insert { at, text: _ } => (None, Some(at)),
        Edit::Replace { at, text: _ } => (Some(at), Some(at)),
        Edit::Remove { at } => (Some(at), None),
        Edit::Relocate { from, to } => (Some(from), Some(to)),
    }
}

// The text of the new block that an edit brings, if it brings one.
fn text_of<'a>(edit: &Edit<'a>) -> Option<&'a [u8]>
    ensures { option_map (λ text. text.now) result ≡ new_text (change_of edit.now) }
{
    match *edit {
        Edit::Insert { at: _, text } => Some(text),
        Edit::Replace { at: _, text } => Some(text),
        Edit::Remove { at: _ } => None,
        Edit::Relocate { from: _, to: _ } => None,
    }
}

// Makes room for a block. All stays as it is; at an error the index lets go of the names that
// nobody has or uses.
fn reserve(slots: &mut Slots, block: &Parsed) -> Result<(), AllocError>
    requires { AreRead slots.old }
    ensures read { AreRead slots.new }
    ensures slots { slots_of slots.new ≡ slots_of slots.old }
    ensures texts { slot_texts slots.new ≡ slot_texts slots.old }
    ensures room { OnOk result (HasRoomFor slots.new (reading_of block.now)) }
    ensures forgotten { OnErr result (HasForgotten slots.new (reading_of block.now)) }
{
    match slots.make_room(block) {
        Ok(()) => Ok(()),
        Err(error) => {
            slots.forget_unused(block);
            Err(error)
        }
    }
}

/// The new block of an edit, read by the rule, with room made for it, if the edit brings one. The
/// list stays as it is.
pub(crate) fn read_new(
    alloc: Global,
    rule: Rule,
    slots: &mut Slots,
    shared: Option<&mut SharedTexts>,
    edit: &Edit<'_>,
) -> Result<Option<Slot>, AllocError>
    requires read { AreRead slots.old }
    requires sound { IsSoundEdit (slot_texts slots.old) (change_of edit.now) }
    ensures read { AreRead slots.new }
    ensures slots { slots_of slots.new ≡ slots_of slots.old }
    ensures texts { slot_texts slots.new ≡ slot_texts slots.old }
    ensures new { IfOk result (IsNewOf slots.new (change_of edit.now)) }
    ensures ruled { IfOk result (λ new. IfSome new (HasRule rule)) }
{
    let Some(text) = text_of(edit) else {
        return Ok(None);
    };
    let slot = read_slot(alloc, rule, text, shared)?;
    reserve(slots, &slot.block)?;
    Ok(Some(slot))
}

// Takes a block out of the list, if a position is given.
fn take_out(slots: &mut Slots, out: Option<usize>) -> Option<Slot>
    requires { IfSome out (λ at. at < length slots.old.placed) }
    ensures { IsOut slots.old slots.new out result }
{
    match out {
        Some(at) => Some(slots.take_out(at)),
        None => None,
    }
}

// The slot to be put in: the spare one, or the one taken out if there is none. The other one is
// spare then.
fn trade(taken: Option<Slot>, spare: &mut Option<Slot>) -> Option<Slot>
    ensures put { result ≡ slot_put taken spare.old }
    ensures left { spare.new ≡ slot_left taken spare.old }
{
    match spare.take() {
        Some(new) => {
            *spare = taken;
            Some(new)
        }
        None => taken,
    }
}

// Takes a block out of the list and puts one in, if the positions are given, and gives the id of
// the one put in. That is the spare one, or the one taken out if there is none; the other one is
// spare then. It takes no memory, and so does the same with the positions exchanged, which undoes
// it.
fn exchange(
    slots: &mut Slots,
    out: Option<usize>,
    put: Option<usize>,
    spare: &mut Option<Slot>,
) -> Option<u32>
    requires { CanExchange slots.old out put spare.old }
    ensures { IsExchanged slots.old slots.new out put spare.old spare.new result }
{
    let taken = take_out(slots, out);
    match put {
        Some(at) => {
            let slot = trade(taken, spare).unwrap();
            Some(slots.put_in(at, slot))
        }
        None => {
            *spare = taken;
            None
        }
    }
}

/// Makes the change of an edit, with the new block that was read for it, and gives the id of the
/// block put in. A block taken out that is not the one put in is spare then. It takes no memory.
pub(crate) fn make(slots: &mut Slots, edit: &Edit<'_>, spare: &mut Option<Slot>) -> Option<u32>
    requires read { AreRead slots.old }
    requires sound { IsSoundEdit (slot_texts slots.old) (change_of edit.now) }
    requires new { IsNewOf slots.old (change_of edit.now) spare.old }
    ensures made { IsMade slots.old slots.new (change_of edit.now) spare.old spare.new result }
    ensures edited { IsEdited slots.old slots.new (change_of edit.now) result (names_seen spare.new) }
    ensures ruled { IsEditedByRule slots.old slots.new (change_of edit.now) spare.old result (names_seen spare.new) }
{
    let (out, put) = positions(edit);
    exchange(slots, out, put, spare)
}

/// Takes the change of an edit back. It takes no memory.
pub(crate) fn undo(slots: &mut Slots, edit: &Edit<'_>, spare: &mut Option<Slot>)
    requires { CanUndo slots.old (change_of edit.now) spare.old }
    ensures { IsUndone slots.old slots.new (change_of edit.now) spare.old }
{
    let (out, put) = positions(edit);
    exchange(slots, put, out, spare);
}

/// The names of a block that is not in the list, if there is one.
pub(crate) fn names_of(spare: &Option<Slot>) -> &[RcSlice<u8>]
    ensures { map rc_slice_items result.now ≡ names_seen spare.now }
{
    match spare {
        Some(slot) => &slot.block.names,
        None => &[],
    }
}

/// The entry of a block that is not in the list, if there is one and it has one.
pub(crate) fn entry_of(spare: &Option<Slot>) -> Option<&BlockEntry> {
    match spare {
        Some(slot) => slot.settled.state.entry(),
        None => None,
    }
}

/// Lets go of what the index keeps of the names of a block that is not in the list, and that nobody
/// has or uses any more.
pub(crate) fn forget(slots: &mut Slots, spare: &Option<Slot>)
    requires { AreRead slots.old }
    ensures read { AreRead slots.new }
    ensures slots { slots_of slots.new ≡ slots_of slots.old }
    ensures texts { slot_texts slots.new ≡ slot_texts slots.old }
    ensures forgotten { IfSome spare.now (λ slot. HasForgotten slots.new (reading_of slot.block)) }
{
    let Some(slot) = spare else {
        return;
    };
    slots.forget_unused(&slot.block);
}
