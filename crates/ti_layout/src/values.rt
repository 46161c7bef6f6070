//! The values of an entry, and the table that holds them by capability.
ghost use Rattle.std.specs.Prelude.{◌≡◌, ◌≢◌, Option, Some, None, option_map, OnOk, OnErr, IfOk, IfErr, IfSome, IsNone, IsOk, IsSome, if◌then◌else◌};
ghost use Rattle.std.specs.Option.{option_or};
ghost use Rattle.ti_caps.specs.Tables.{Capability, IsCapability, same_capability};
ghost use Rattle.ti_layout.specs.inside.Values.{IsAt, IsGapFor, SetsOnly};
ghost use Rattle.ti_layout.specs.Values.{contents, content_of, entries_of, rank_of, Agrees, AgreesIfSome, IsSorted};

use crate::merging::merge;
use std::alloc::{AllocError, Global};
use std::marker::Model;
use std::rc::RcSlice;
use ti_caps::{Cap, Kind, count};

/// What an entry has of a capability.
#[derive(Debug, Drop)]
pub enum Value {
    /// A boolean that is there.
    True,
    /// A number, at most 2,147,483,647.
    Number(u32),
    /// A string without NUL.
    Text(RcSlice<u8>),
    /// Cancelled, as by `name@`, and so not there.
    Cancelled,
}

/// What an entry has of a capability, with its string where it is.
#[derive(Clone, Copy)]
pub enum Content<'a> {
    /// A boolean that is there.
    True,
    /// A number.
    Number(u32),
    /// A string.
    Text(&'a [u8]),
    /// Cancelled, as by `name@`, and so not there.
    Cancelled,
}

/// The values of an entry: a finite map from capabilities to values.
#[derive(Drop)]
pub struct Table {
    entries: Vec<(Cap, Value)>,
}

impl Model for Table {
    ghost use Rattle.std.specs.Prelude.{List};
    ghost use Rattle.ti_layout.specs.Values.{Mention, IsSorted, entries_of};

    ghost Value = { List Mention };

    ghost view = { λ t. entries_of t.entries.items };

    ghost invariant = { λ t. IsSorted (entries_of t.entries.items) };
}

impl Table {
    /// A table without values. It takes no memory.
    #[tactic(auto, unfolding(crate::specs::Values::contents))]
    pub fn new(alloc: Global) -> Table
        ensures { (c : Capability) → contents result c ≡ None }
    {
        Table {
            entries: Vec::new(alloc),
        }
    }

    /// A table of these values, which are in the order of the entry.
    pub(crate) fn of_entries(entries: Vec<(Cap, Value)>) -> Table
        requires { IsSorted (entries_of entries.items) }
        ensures { result ≡ entries_of entries.items }
    {
        Table { entries }
    }

    /// The value of a capability, or `None` if it has none. It takes no memory.
    pub fn get(&self, cap: Cap) -> Option<&Value>
        ensures found { option_map (λ v. content_of v.now) result ≡ contents self.now cap }
        ensures agrees { IfSome result (λ v. Agrees cap (content_of v.now)) }
    {
        find(&self.entries, cap)
    }

    /// Gives a capability a value, or with `None` takes its value away, and leaves every other one.
    /// The kinds agree, a number is at most 2,147,483,647 and a string holds no NUL. If memory is
    /// short the table remains as it was and the value is dropped.
    pub fn set(&mut self, cap: Cap, value: Option<Value>) -> Result<(), AllocError>
        requires { AgreesIfSome cap (option_map content_of value) }
        ensures set { OnOk result (contents self.new cap ≡ option_map content_of value) }
        ensures others { OnOk result ((c : Capability) → c ≢ cap → contents self.new c ≡ contents self.old c) }
        ensures err { OnErr result (self.new ≡ self.old) }

        // Only a value for a capability that has none needs memory.
        ensures taken_away { IsNone value → IsOk result }
        ensures in_place { IsSome (contents self.old cap) → IsOk result }
    {
        match value {
            Some(value) => put(&mut self.entries, cap, value),
            None => {
                take_out(&mut self.entries, cap);
                Ok(())
            }
        }
    }

    /// Gives a capability a value, unless it has one: a value or a cancel that is there remains,
    /// and the new value is dropped. The kinds agree, a number is at most 2,147,483,647 and a
    /// string holds no NUL. If memory is short the table remains as it was. Only a capability that
    /// has no value needs memory.
    pub fn set_if_absent(&mut self, cap: Cap, value: Value) -> Result<(), AllocError>
        requires { Agrees cap (content_of value) }
        ensures given { OnOk result ((c : Capability) → contents self.new c
            ≡ option_or (contents self.old c) (if same_capability cap c then Some (content_of value) else None)) }
        ensures err { OnErr result (self.new ≡ self.old) }
        ensures in_place { IsSome (contents self.old cap) → IsOk result }
    {
        put_if_absent(&mut self.entries, cap, value)
    }
}

impl Table {
    /// Gives each capability that has no value the value that it has in the other table, with its
    /// string shared. What the table has decides, a cancelled value too. One walk goes over both.
    /// If memory is short the table remains as it was.
    pub fn merge(&mut self, other: &Table) -> Result<(), AllocError>
        ensures merged { OnOk result ((c : Capability) → contents self.new c ≡ option_or (contents self.old c) (contents other.now c)) }
        ensures err { OnErr result (self.new ≡ self.old) }
    {
        let merged = merge(*self.entries.allocator(), &self.entries, &other.entries)?;
        self.entries = merged;
        Ok(())
    }

    /// What holds of every table: each value is one that its capability may have. The law computes
    /// nothing.
    pub fn values_agree(&self)
        ensures { (c : Capability) → AgreesIfSome c (contents self.now c) }
    {
        let _ = &self.entries;
    }

    /// The capabilities that have a value, with it, in the order of the compiled entry.
    pub fn entries(&self) -> &[(Cap, Value)]
        ensures entries { entries_of result.now ≡ self.now }
        ensures sorted { IsSorted (entries_of result.now) }
    {
        &self.entries
    }
}

/// Which of all capabilities it is, in the order of the compiled entry.
pub(crate) fn rank(cap: Cap) -> usize
    ensures value { result ≡ rank_of cap }
    ensures valid { IsCapability cap }
{
    match cap.kind() {
        Kind::Flag => cap.index(),
        Kind::Number => count(Kind::Flag) + cap.index(),
        Kind::Text => count(Kind::Flag) + count(Kind::Number) + cap.index(),
    }
}

// At which index the entry of a capability is, or would be.
fn search(entries: &[(Cap, Value)], cap: Cap) -> Result<usize, usize>
    requires { IsSorted (entries_of entries.now) }
    ensures valid { IsCapability cap }
    ensures found { IfOk result (IsAt (entries_of entries.now) cap) }
    ensures absent { IfErr result (IsGapFor (entries_of entries.now) cap) }
{
    let wanted = rank(cap);
    entries.binary_search_by_key(&wanted, |entry| rank(entry.0))
}

// The value of a capability.
fn find(entries: &[(Cap, Value)], cap: Cap) -> Option<&Value>
    requires { IsSorted (entries_of entries.now) }
    ensures found { option_map (λ v. content_of v.now) result ≡ contents (entries_of entries.now) cap }
    ensures agrees { IfSome result (λ v. Agrees cap (content_of v.now)) }
{
    match search(entries, cap) {
        Ok(at) => Some(&entries[at].1),
        Err(_) => None,
    }
}

// Gives a capability a value, where its entry is or would be.
fn put(entries: &mut Vec<(Cap, Value)>, cap: Cap, value: Value) -> Result<(), AllocError>
    requires sorted { IsSorted (entries_of entries.old.items) }
    requires agrees { Agrees cap (content_of value) }
    ensures sorted { IsSorted (entries_of entries.new.items) }
    ensures ok { OnOk result (SetsOnly (entries_of entries.old.items) (entries_of entries.new.items) cap (Some (content_of value))) }
    ensures err { OnErr result (entries.new.items ≡ entries.old.items) }
    ensures in_place { IsSome (contents (entries_of entries.old.items) cap) → IsOk result }
{
    match search(entries, cap) {
        Ok(at) => {
            entries[at] = (cap, value);
            Ok(())
        }
        Err(at) => {
            entries.insert(at, (cap, value))?;
            Ok(())
        }
    }
}

// Gives a capability a value, unless it has one.
fn put_if_absent(entries: &mut Vec<(Cap, Value)>, cap: Cap, value: Value) -> Result<(), AllocError>
    requires sorted { IsSorted (entries_of entries.old.items) }
    requires agrees { Agrees cap (content_of value) }
    ensures sorted { IsSorted (entries_of entries.new.items) }
    ensures ok { OnOk result ((c : Capability) → contents (entries_of entries.new.items) c
        ≡ option_or (contents (entries_of entries.old.items) c) (if same_capability cap c then Some (content_of value) else None)) }
    ensures err { OnErr result (entries.new.items ≡ entries.old.items) }
    ensures in_place { IsSome (contents (entries_of entries.old.items) cap) → IsOk result }
{
    match search(entries, cap) {
        Ok(_) => Ok(()),
        Err(at) => {
            entries.insert(at, (cap, value))?;
            Ok(())
        }
    }
}

// Takes the value of a capability away.
fn take_out(entries: &mut Vec<(Cap, Value)>, cap: Cap)
    requires { IsSorted (entries_of entries.old.items) }
    ensures sorted { IsSorted (entries_of entries.new.items) }
    ensures gone { SetsOnly (entries_of entries.old.items) (entries_of entries.new.items) cap None }
{
    if let Ok(at) = search(entries, cap) {
        let _ = entries.remove(at);
    }
}
