//! Blocks come to the list and leave it. Room is made first, and then no change takes memory.
ghost use Rattle.std.specs.Prelude.{◌≡◌, ◌<◌, ◌≤◌, ◌+◌, ◌^◌, ℕ, length, OnOk};
ghost use Rattle.ti_source.specs.Reading.{reading_of};
ghost use Rattle.base_slots.specs.inside.Fields.{slot_stored};

use crate::indexing::{add, forget, remove, reserve};
use crate::slots::{Slot, Slots};
use base_index::BlockOrder;
use std::alloc::AllocError;
use ti_source::Parsed;

// Makes sure that an id is free, and that each id has a place among the slots.
fn make_place(order: &mut BlockOrder, slots: &mut Vec<Option<Slot>>) -> Result<(), AllocError>
    requires few { length order.old.listed < 2 ^ 31 }
    requires places { length order.old.listed + length order.old.free ≤ length slots.old.items }
    ensures listed { order.new.listed ≡ order.old.listed }
    ensures kept { 0 < length order.old.free → 0 < length order.new.free }
    ensures places { length order.new.listed + length order.new.free ≤ length slots.new.items }
    ensures slots { (id : ℕ) → slot_stored slots.new.items id ≡ slot_stored slots.old.items id }
    ensures free { OnOk result (0 < length order.new.free) }
{
    if slots.len() == order.count() {
        slots.push(None)?;
    }
    order.reserve()
}

impl Slots {
    ghost use Rattle.base_slots.specs.Changes.{HasForgotten, HasRoomFor, KeepsCapacities, KeepsRooms, PutsIn, TakesOut};

    /// Makes room for one more block that says this, so that it can be put in without memory. The
    /// list stays as it is, also if it fails, and room made before stays.
    ///
    /// # Errors
    /// Out of memory.
    pub fn make_room(&mut self, block: &Parsed) -> Result<(), AllocError>
        requires { length self.old.placed < 2 ^ 31 }
        ensures placed { self.new.placed ≡ self.old.placed }
        ensures capacity { KeepsCapacities self.old self.new }
        ensures rooms { KeepsRooms self.old self.new }
        ensures room { OnOk result (HasRoomFor self.new (reading_of block.now)) }
    {
        make_place(&mut self.order, &mut self.slots)?;
        reserve(&mut self.names, block)
    }

    /// Puts a block in at a position of the list, under the id that was freed last, and gives the
    /// id. Takes no memory.
    pub fn put_in(&mut self, at: usize, slot: Slot) -> u32
        requires within { at ≤ length self.old.placed }
        requires room { HasRoomFor self.old (reading_of slot.block) }
        ensures { PutsIn self.old self.new at slot result }
    {
        let id = self.order.insert(at);
        add(&mut self.names, &self.order, &slot.block, id);
        self.slots[id as usize] = Some(slot);
        id
    }

    /// Takes the block at a position out of the list, and gives its slot. Its id is free from then
    /// on. Takes no memory, and the room that the block had stays.
    pub fn take_out(&mut self, at: usize) -> Slot
        requires { at < length self.old.placed }
        ensures { TakesOut self.old self.new at result }
    {
        let id = self.order.ids()[at];
        let slot = self.slots[id as usize].take().unwrap();
        remove(&mut self.names, &self.order, &slot.block, id);
        self.order.remove(at);
        slot
    }

    /// Drops what the index keeps of those names of a block that no block has or uses any more. The
    /// list stays as it is; room made before may go.
    pub fn forget_unused(&mut self, block: &Parsed)
        ensures placed { self.new.placed ≡ self.old.placed }
        ensures free { self.new.free ≡ self.old.free }
        ensures forgotten { HasForgotten self.new (reading_of block.now) }
    {
        forget(&mut self.names, block);
    }
}
