//! What a block says of each user-defined name.
ghost use Rattle.std.specs.Prelude.{◌≡◌, List, ℕ, None, OnErr, OnOk};
ghost use Rattle.std.specs.Option.{option_map, option_or};
ghost use Rattle.std.specs.Rc.{rc_slice_items};
ghost use Rattle.ti_layout.specs.Laws.{without_cancel};
ghost use Rattle.ti_layout.specs.Values.{content_of};
ghost use Rattle.user_values.specs.Tables.{entries_seen, said_at, said_once, NamesRise};

use crate::entries::{Held, UserEntry, add_all, add_entry, add_values, entry_of, find, slice_of};
use std::alloc::{AllocError, Global};
use std::marker::Model;
use std::rc::{Rc, RcSlice};
use ti_layout::Value;

/// What is said about each of some user-defined names: a value, or that it is cancelled.
#[derive(Drop)]
pub struct UserTable {
    entries: Held,
}

impl Model for UserTable {
    ghost use Rattle.user_values.specs.Tables.{NamesRise, TableSeen};
    ghost use Rattle.user_values.specs.inside.Entries.{held_seen};

    ghost Value = { TableSeen };

    ghost view = { λ t. held_seen t.entries };

    ghost invariant = { λ t. NamesRise (held_seen t.entries) };
}

impl UserTable {
    /// Nothing is said. It takes no memory.
    pub fn new() -> UserTable
        ensures { (name : List ℕ) → said_at result name ≡ None }
    {
        UserTable { entries: None }
    }

    /// What is said about a name, if something is.
    pub fn get(&self, name: &[u8]) -> Option<&Value>
        ensures { option_map (λ value. content_of value.now) result ≡ said_at self.now name.now }
    {
        find(slice_of(&self.entries), name)
    }

    /// Says this of a name, unless something is said about it already. The name is shared.
    ///
    /// # Errors
    /// Out of memory; the table is then as it was.
    pub fn add(
        &mut self,
        alloc: Global,
        name: &RcSlice<u8>,
        value: &Value,
    ) -> Result<(), AllocError>
        ensures said { OnOk result ((other : List ℕ) → said_at self.new other
            ≡ option_or (said_at self.old other) (said_once (rc_slice_items name.now) (content_of value.now) other)) }
        ensures err { OnErr result (self.new ≡ self.old) }
    {
        let entry = entry_of(alloc, name, value)?;
        add_entry(alloc, &mut self.entries, &entry)
    }

    /// Says what another table says of each name of which nothing is said yet. The entries are
    /// shared, and all of them at once if nothing is said so far.
    ///
    /// # Errors
    /// Out of memory; the table is then as it was.
    pub fn merge(&mut self, alloc: Global, other: &UserTable) -> Result<(), AllocError>
        ensures said { OnOk result ((name : List ℕ) → said_at self.new name ≡ option_or (said_at self.old name) (said_at other.now name)) }
        ensures err { OnErr result (self.new ≡ self.old) }
    {
        add_all(alloc, &mut self.entries, &other.entries)
    }

    /// Says what another table says of each name of which nothing is said yet, but for cancels.
    ///
    /// # Errors
    /// Out of memory; the table is then as it was.
    pub fn merge_values(&mut self, alloc: Global, other: &UserTable) -> Result<(), AllocError>
        ensures said { OnOk result ((name : List ℕ) → said_at self.new name
            ≡ option_or (said_at self.old name) (without_cancel (said_at other.now name))) }
        ensures err { OnErr result (self.new ≡ self.old) }
    {
        add_values(alloc, &mut self.entries, &other.entries)
    }

    /// The names of which something is said, each with that, in the order of their bytes.
    pub fn entries(&self) -> &[Rc<UserEntry>]
        ensures seen { entries_seen result.now ≡ self.now }
        ensures rise { NamesRise (entries_seen result.now) }
    {
        slice_of(&self.entries)
    }
}
