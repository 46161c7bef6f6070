//! The index of names as a block comes or goes: one walk over the names that the block says.
ghost use Rattle.std.specs.Prelude.{◌≡◌, ◌<◌, ◌+◌, ℕ, List, length, OnOk, Some, option_map, slice_get};
ghost use Rattle.ti_text.specs.Lists.{Has};
ghost use Rattle.base_slots.specs.inside.Indexing.{all_said, ids_at, says_of, AddsId, Forgets, HasRoomAt, IsGrown, IsPart, Removes};

use base_index::{BlockOrder, NameIndex};
use std::alloc::AllocError;
use ti_source::{Parsed, What};

/// What a block does with a name.
#[derive(Clone, Copy)]
pub(crate) enum Role {
    /// It has the name.
    Holder,
    /// It uses the name.
    User,
}

// The name that a block says at a place, if it says one there: first come its names, then its
// items.
fn said_at(block: &Parsed, place: usize) -> Option<(Role, &[u8])>
    requires { place < length block.now.names.items + length block.now.items.items }
    ensures { slice_get (all_said block.now) place ≡ Some (option_map (λ said. (said.0, said.1.now)) result) }
{
    if place < block.names.len() {
        return Some((Role::Holder, block.names[place].as_slice()));
    }
    match &block.items[place - block.names.len()].what {
        What::Import(name) => Some((Role::User, name.as_slice())),
        _ => None,
    }
}

/// Lists a block at the names that it says.
pub(crate) fn add(index: &mut NameIndex, order: &BlockOrder, block: &Parsed, id: u32)
    requires stands { Has order.now.listed id }
    requires parts { (role : Role) (name : List ℕ) → IsPart order.now.listed (ids_at role index.old name) }
    requires room { HasRoomAt (says_of block.now) index.old }
    ensures { AddsId order.now.listed (says_of block.now) id index.old index.new }
{
    for place in 0..block.names.len() + block.items.len() {
        match said_at(block, place) {
            Some((Role::Holder, name)) => index.add_holder(order, name, id),
            Some((Role::User, name)) => index.add_user(order, name, id),
            None => {}
        }
    }
}

/// Takes a block from the lists of the names that it says.
pub(crate) fn remove(index: &mut NameIndex, order: &BlockOrder, block: &Parsed, id: u32)
    requires stands { Has order.now.listed id }
    requires parts { (role : Role) (name : List ℕ) → IsPart order.now.listed (ids_at role index.old name) }
    ensures { Removes order.now.listed (says_of block.now) id index.old index.new }
{
    for place in 0..block.names.len() + block.items.len() {
        match said_at(block, place) {
            Some((Role::Holder, name)) => index.remove_holder(order, name, id),
            Some((Role::User, name)) => index.remove_user(order, name, id),
            None => {}
        }
    }
}

/// Makes room at the names that a block says.
pub(crate) fn reserve(index: &mut NameIndex, block: &Parsed) -> Result<(), AllocError>
    ensures grown { IsGrown index.old index.new }
    ensures room { OnOk result (HasRoomAt (says_of block.now) index.new) }
{
    for place in 0..block.names.len() + block.items.len() {
        if let Some((_, name)) = said_at(block, place) {
            index.reserve(name)?;
        }
    }
    Ok(())
}

/// Drops those of the names that a block says that no block has or uses.
pub(crate) fn forget(index: &mut NameIndex, block: &Parsed)
    ensures { Forgets (says_of block.now) index.old index.new }
{
    for place in 0..block.names.len() + block.items.len() {
        if let Some((_, name)) = said_at(block, place) {
            index.forget_unused(name);
        }
    }
}
