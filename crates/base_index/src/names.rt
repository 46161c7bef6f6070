//! Names, each with the blocks that have it and those that use it.
ghost use Rattle.std.specs.Prelude.{◌≡◌, ◌⊎◌, ℕ, List, [], IsSome, OnOk};
ghost use Rattle.ti_text.specs.Lists.{Has};
ghost use Rattle.base_index.specs.Listing.{AreAmong, Lists, ListsNoMore, ListsToo};
ghost use Rattle.base_index.specs.Names.{holders_at, users_at, mentions_at, HasHolderRoom, HasUserRoom, IsForgotten, IsSeenSame, KeepsCapacity, KeepsOthers};

use crate::listing::{put_in, take_out};
use crate::order::BlockOrder;
use std::alloc::{AllocError, Global};
use std::collections::BTreeMap;

// The ids of the blocks that have a name, and of those that use it.
#[derive(Drop)]
struct Mentions {
    holders: Vec<u32>,
    users: Vec<u32>,
}

/// Which blocks have a name and which use it, each list in the order of all blocks. A change takes
/// two steps: room is made first, which may fail and shows nothing, and the change then takes no
/// memory.
#[derive(Drop)]
pub struct NameIndex {
    alloc: Global,
    entries: BTreeMap<Vec<u8>, Mentions>,
}

impl NameIndex {
    /// No names. It takes no memory.
    pub fn new(alloc: Global) -> NameIndex
        ensures holders { (name : List ℕ) → holders_at result name ≡ [] }
        ensures users { (name : List ℕ) → users_at result name ≡ [] }
    {
        NameIndex {
            alloc,
            entries: BTreeMap::new(alloc),
        }
    }

    /// The blocks that have a name. The first owns it.
    pub fn holders(&self, name: &[u8]) -> &[u32]
        ensures { result.now ≡ holders_at self.now name.now }
    {
        match self.entries.get(name) {
            Some(mentions) => &mentions.holders,
            None => &[],
        }
    }

    /// The blocks that use a name.
    pub fn users(&self, name: &[u8]) -> &[u32]
        ensures { result.now ≡ users_at self.now name.now }
    {
        match self.entries.get(name) {
            Some(mentions) => &mentions.users,
            None => &[],
        }
    }

    /// Puts a block among those that have a name. Room is needed if it is not one of them yet.
    pub fn add_holder(&mut self, order: &BlockOrder, name: &[u8], id: u32)
        requires stands { Has order.now.listed id }
        requires among { AreAmong (holders_at self.old name.now) order.now.listed }
        requires room { HasHolderRoom self.old name.now ⊎ Lists order.now.listed (holders_at self.old name.now) id }
        ensures holders { ListsToo order.now.listed (holders_at self.old name.now) (holders_at self.new name.now) id }
        ensures users { users_at self.new name.now ≡ users_at self.old name.now }
        ensures capacity { KeepsCapacity self.old self.new name.now }
        ensures others { KeepsOthers self.old self.new name.now }
    {
        if let Some(mentions) = self.entries.get_mut(name) {
            put_in(order, &mut mentions.holders, id);
        }
    }

    /// Puts a block among those that use a name. Room is needed if it is not one of them yet.
    pub fn add_user(&mut self, order: &BlockOrder, name: &[u8], id: u32)
        requires stands { Has order.now.listed id }
        requires among { AreAmong (users_at self.old name.now) order.now.listed }
        requires room { HasUserRoom self.old name.now ⊎ Lists order.now.listed (users_at self.old name.now) id }
        ensures users { ListsToo order.now.listed (users_at self.old name.now) (users_at self.new name.now) id }
        ensures holders { holders_at self.new name.now ≡ holders_at self.old name.now }
        ensures capacity { KeepsCapacity self.old self.new name.now }
        ensures others { KeepsOthers self.old self.new name.now }
    {
        if let Some(mentions) = self.entries.get_mut(name) {
            put_in(order, &mut mentions.users, id);
        }
    }

    /// Takes a block from among those that have a name. No capacity is lost.
    pub fn remove_holder(&mut self, order: &BlockOrder, name: &[u8], id: u32)
        requires stands { Has order.now.listed id }
        requires among { AreAmong (holders_at self.old name.now) order.now.listed }
        ensures holders { ListsNoMore order.now.listed (holders_at self.old name.now) (holders_at self.new name.now) id }
        ensures users { users_at self.new name.now ≡ users_at self.old name.now }
        ensures capacity { KeepsCapacity self.old self.new name.now }
        ensures others { KeepsOthers self.old self.new name.now }
    {
        if let Some(mentions) = self.entries.get_mut(name) {
            take_out(order, &mut mentions.holders, id);
        }
    }

    /// Takes a block from among those that use a name. No capacity is lost.
    pub fn remove_user(&mut self, order: &BlockOrder, name: &[u8], id: u32)
        requires stands { Has order.now.listed id }
        requires among { AreAmong (users_at self.old name.now) order.now.listed }
        ensures users { ListsNoMore order.now.listed (users_at self.old name.now) (users_at self.new name.now) id }
        ensures holders { holders_at self.new name.now ≡ holders_at self.old name.now }
        ensures capacity { KeepsCapacity self.old self.new name.now }
        ensures others { KeepsOthers self.old self.new name.now }
    {
        if let Some(mentions) = self.entries.get_mut(name) {
            take_out(order, &mut mentions.users, id);
        }
    }

    /// Makes room for one more block that has a name, and for one more that uses it. No look-up
    /// shows a difference, also if it fails.
    ///
    /// # Errors
    /// Out of memory.
    pub fn reserve(&mut self, name: &[u8]) -> Result<(), AllocError>
        ensures seen { (other : List ℕ) → IsSeenSame self.old self.new other }
        ensures capacity { (other : List ℕ) → KeepsCapacity self.old self.new other }
        ensures holder_room { OnOk result (HasHolderRoom self.new name.now) }
        ensures user_room { OnOk result (HasUserRoom self.new name.now) }
    {
        self.bring(name)?;
        self.grow(name)
    }

    // Makes an entry for a name that has none.
    fn bring(&mut self, name: &[u8]) -> Result<(), AllocError>
        ensures seen { (other : List ℕ) → IsSeenSame self.old self.new other }
        ensures capacity { (other : List ℕ) → KeepsCapacity self.old self.new other }
        ensures there { OnOk result (IsSome (mentions_at self.new name.now)) }
    {
        if self.entries.contains_key(name) {
            return Ok(());
        }
        let key = Vec::from_slice(self.alloc, name)?;
        let mentions = Mentions {
            holders: Vec::new(self.alloc),
            users: Vec::new(self.alloc),
        };
        self.entries.insert(key, mentions)?;
        Ok(())
    }

    // Makes room in the entry of a name.
    fn grow(&mut self, name: &[u8]) -> Result<(), AllocError>
        requires { IsSome (mentions_at self.old name.now) }
        ensures seen { (other : List ℕ) → IsSeenSame self.old self.new other }
        ensures capacity { (other : List ℕ) → KeepsCapacity self.old self.new other }
        ensures holder_room { OnOk result (HasHolderRoom self.new name.now) }
        ensures user_room { OnOk result (HasUserRoom self.new name.now) }
    {
        if let Some(mentions) = self.entries.get_mut(name) {
            mentions.holders.reserve(1)?;
            mentions.users.reserve(1)?;
        }
        Ok(())
    }

    /// Drops the entry of a name that no block has or uses. No look-up shows a difference.
    pub fn forget_unused(&mut self, name: &[u8])
        ensures gone { IsForgotten self.new name.now }
        ensures seen { (other : List ℕ) → IsSeenSame self.old self.new other }
        ensures others { KeepsOthers self.old self.new name.now }
    {
        if self.holders(name).is_empty() && self.users(name).is_empty() {
            self.entries.remove(name);
        }
    }
}
