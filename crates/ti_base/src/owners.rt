//! The slots by position, and whose a name is.
ghost use Rattle.std.specs.Prelude.{◌≡◌, ◌<◌, Some, length, slice_get};
ghost use Rattle.base_meaning.specs.Owner.{owner};
ghost use Rattle.base_meaning.specs.Faults.{is_owned_before};
ghost use Rattle.base_slots.specs.Slots.{blocks_of, slots_of};

use base_slots::{Slot, Slots};

/// The slot of the block at a position.
pub(crate) fn slot_of(slots: &Slots, at: usize) -> &Slot
    requires { at < length slots.now.placed }
    ensures { slice_get (slots_of slots.now) at ≡ Some result.now }
{
    slots.slot(slots.ids()[at])
}

/// The position of the first block that has the name, if there is one.
pub(crate) fn find_owner(slots: &Slots, name: &[u8]) -> Option<usize>
    ensures { result ≡ owner (blocks_of slots.now) name.now }
{
    match slots.owner(name) {
        Some(id) => Some(slots.position(id)),
        None => None,
    }
}

/// Whether the name belongs to a block before that position.
pub(crate) fn is_owned_before(slots: &Slots, at: usize, name: &[u8]) -> bool
    ensures { result ≡ is_owned_before (blocks_of slots.now) at name.now }
{
    match find_owner(slots, name) {
        Some(owner) => owner < at,
        None => false,
    }
}
