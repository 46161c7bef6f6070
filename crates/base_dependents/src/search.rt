//! The search: the block put in and the users of touched names, then the users of each block found.
ghost use Rattle.std.specs.Prelude.{◌≡◌, ◌↔◌, ℕ, Some, IsTrue, [], length, map, OnOk};
ghost use Rattle.std.specs.Rc.{rc_slice_items};
ghost use Rattle.ti_text.specs.Lists.{Has};
ghost use Rattle.base_slots.specs.Slots.{ids_of, IsOwnerId, StandsAt};
ghost use Rattle.base_dependents.specs.inside.Search.{AddsPassing, IsUserOf, IsUserOfOne, IsUserOfOwned, IsPutOrUser, IsSearch};

use crate::blocks::block_of;
use base_slots::Slots;
use indexmap::IndexSet;
use std::alloc::AllocError;
use std::rc::RcSlice;

// Adds the users of a name.
fn add_users(slots: &Slots, name: &[u8], found: &mut IndexSet<u32>) -> Result<(), AllocError>
    ensures { OnOk result (AddsPassing (IsUserOf slots.now name.now) found.old.keys found.new.keys) }
{
    for id in slots.users(name) {
        found.insert(*id)?;
    }
    Ok(())
}

// Adds the users of each name.
fn add_users_of_names(
    slots: &Slots,
    names: &[RcSlice<u8>],
    found: &mut IndexSet<u32>,
) -> Result<(), AllocError>
    ensures { OnOk result (AddsPassing (IsUserOfOne slots.now (map rc_slice_items names.now)) found.old.keys found.new.keys) }
{
    for name in names {
        add_users(slots, name.as_slice(), found)?;
    }
    Ok(())
}

// Whether a name belongs to the block with an id.
fn owns(slots: &Slots, name: &[u8], id: u32) -> bool
    ensures { IsTrue result ↔ IsOwnerId slots.now name.now id }
{
    slots.owner(name) == Some(id)
}

// Adds the users of those of the names that belong to the block with an id.
fn add_users_of_owned(
    slots: &Slots,
    id: u32,
    names: &[RcSlice<u8>],
    found: &mut IndexSet<u32>,
) -> Result<(), AllocError>
    ensures { OnOk result (AddsPassing (IsUserOfOwned slots.now id (map rc_slice_items names.now)) found.old.keys found.new.keys) }
{
    for name in names {
        if owns(slots, name.as_slice(), id) {
            add_users(slots, name.as_slice(), found)?;
        }
    }
    Ok(())
}

// Adds a block and the users of its names.
fn add_with_users(slots: &Slots, id: u32, found: &mut IndexSet<u32>) -> Result<(), AllocError>
    requires { Has (ids_of slots.now) id }
    ensures { OnOk result (AddsPassing (IsPutOrUser slots.now id) found.old.keys found.new.keys) }
{
    found.insert(id)?;
    add_users_of_names(slots, &block_of(slots, id).names, found)?;
    Ok(())
}

// Adds the block put in, if there is one, and the users of touched names.
fn add_first(
    slots: &Slots,
    put: Option<u32>,
    out: &[RcSlice<u8>],
    found: &mut IndexSet<u32>,
) -> Result<(), AllocError>
    requires put { (id : ℕ) → put ≡ Some id → (at : ℕ) × StandsAt slots.now at id }
    requires empty { found.old.keys ≡ [] }
    ensures { OnOk result (IsSearch slots.now put (map rc_slice_items out.now) found.new.keys 0) }
{
    if let Some(id) = put {
        add_with_users(slots, id, found)?;
    }
    add_users_of_names(slots, out, found)
}

/// Adds all blocks that depend on the edit, by their ids. None was found before.
pub(crate) fn search(
    slots: &Slots,
    put: Option<u32>,
    out: &[RcSlice<u8>],
    found: &mut IndexSet<u32>,
) -> Result<(), AllocError>
    requires put { (id : ℕ) → put ≡ Some id → (at : ℕ) × StandsAt slots.now at id }
    requires empty { found.old.keys ≡ [] }
    ensures { OnOk result (IsSearch slots.now put (map rc_slice_items out.now) found.new.keys (length found.new.keys)) }
{
    add_first(slots, put, out, found)?;
    let mut next = 0;
    while next < found.len() {
        let id = found[next];
        add_users_of_owned(slots, id, &block_of(slots, id).names, found)?;
        next += 1;
    }
    Ok(())
}
