//! What is said about user-defined names, in entries that tables share.
ghost use Rattle.std.specs.Prelude.{◌≡◌, ◌≤◌, true, IfErr, IfOk, OnErr, OnOk, length};
ghost use Rattle.std.specs.List.{insert, list_any};
ghost use Rattle.std.specs.Cmp.Lexicographic.{slice_cmp};
ghost use Rattle.std.specs.Option.{option_map};
ghost use Rattle.std.specs.Ordering.{nat_cmp};
ghost use Rattle.std.specs.Rc.{rc_slice_items};
ghost use Rattle.ti_layout.specs.Values.{content_of};
ghost use Rattle.user_values.specs.Tables.{entries_seen, entry_seen, said_at, NamesRise};
ghost use Rattle.user_values.specs.inside.Entries.{held_seen, is_cancel, AddsEntries, AddsEntry, AddsValue, AddsValues, IsAt, IsGapFor};

use std::alloc::{AllocError, Global};
use std::cmp::Ordering;
use std::rc::{Rc, RcSlice};
use ti_layout::Value;

/// A user-defined name, and what is said about it: a value, or that it is cancelled.
#[derive(Drop)]
pub struct UserEntry {
    /// The name.
    pub name: RcSlice<u8>,
    /// What is said about it.
    pub value: Value,
}

/// The entries of a table in the order of their names' bytes; none if nothing is said. Tables share
/// the entries that they have in common, and the whole list if they say the same.
pub(crate) type Held = Option<Rc<Vec<Rc<UserEntry>>>>;

// A copy of a value. Its text is shared.
fn copy_value(value: &Value) -> Result<Value, AllocError>
    ensures { IfOk result (λ copy. content_of copy ≡ content_of value.now) }
{
    match value {
        Value::True => Ok(Value::True),
        Value::Number(number) => Ok(Value::Number(*number)),
        Value::Text(text) => {
            let text = text.clone()?;
            Ok(Value::Text(text))
        }
        Value::Cancelled => Ok(Value::Cancelled),
    }
}

// The same name, shared.
fn share_name(name: &RcSlice<u8>) -> Result<RcSlice<u8>, AllocError>
    ensures { IfOk result (λ same. rc_slice_items same ≡ rc_slice_items name.now) }
{
    let same = name.clone()?;
    Ok(same)
}

/// An entry of a name and a value, which it shares.
pub(crate) fn entry_of(
    alloc: Global,
    name: &RcSlice<u8>,
    value: &Value,
) -> Result<Rc<UserEntry>, AllocError>
    ensures { IfOk result (λ entry. entry_seen entry.value ≡ (rc_slice_items name.now, content_of value.now)) }
{
    let name = share_name(name)?;
    let value = copy_value(value)?;
    let entry = Rc::new(alloc, UserEntry { name, value })?;
    Ok(entry)
}

/// The entries as a slice.
pub(crate) fn slice_of(held: &Held) -> &[Rc<UserEntry>]
    ensures { entries_seen result.now ≡ held_seen held.now }
{
    match held {
        Some(entries) => entries.as_ref().as_slice(),
        None => &[],
    }
}

// How the name of an entry stands to another name.
fn order(entry: &Rc<UserEntry>, name: &[u8]) -> Ordering
    ensures { result ≡ slice_cmp nat_cmp (rc_slice_items entry.now.value.name) name.now }
{
    entry.as_ref().name.as_slice().cmp(name)
}

// At which index the entry of a name is, or would be.
fn search(entries: &[Rc<UserEntry>], name: &[u8]) -> Result<usize, usize>
    requires { NamesRise (entries_seen entries.now) }
    ensures found { IfOk result (IsAt (entries_seen entries.now) name.now) }
    ensures absent { IfErr result (IsGapFor (entries_seen entries.now) name.now) }
{
    entries.binary_search_by(|entry| order(entry, name))
}

/// What is said about a name.
pub(crate) fn find<'a>(entries: &'a [Rc<UserEntry>], name: &[u8]) -> Option<&'a Value>
    requires { NamesRise (entries_seen entries.now) }
    ensures { option_map (λ value. content_of value.now) result ≡ said_at (entries_seen entries.now) name.now }
{
    match search(entries, name) {
        Ok(at) => Some(&entries[at].as_ref().value),
        Err(_) => None,
    }
}

// The same entry, shared.
fn share_entry(entry: &Rc<UserEntry>) -> Result<Rc<UserEntry>, AllocError>
    ensures { IfOk result (λ same. same.value ≡ entry.now.value) }
{
    let same = entry.clone()?;
    Ok(same)
}

// The same entries in a list of their own, with room for one more.
fn copies_of(alloc: Global, entries: &[Rc<UserEntry>]) -> Result<Vec<Rc<UserEntry>>, AllocError>
    ensures { IfOk result (λ copies. entries_seen copies.items ≡ entries_seen entries.now) }
{
    let mut copies = Vec::with_capacity(alloc, entries.len().saturating_add(1))?;
    for entry in entries {
        let copy = share_entry(entry)?;
        copies.push(copy)?;
    }
    Ok(copies)
}

// Puts an entry in at an index of a list.
fn insert_at(
    list: &mut Vec<Rc<UserEntry>>,
    at: usize,
    entry: Rc<UserEntry>,
) -> Result<(), AllocError>
    requires { at ≤ length list.old.items }
    ensures ok { OnOk result (list.new.items ≡ insert list.old.items at entry) }
    ensures err { OnErr result (list.new.items ≡ list.old.items) }
{
    list.insert(at, entry)?;
    Ok(())
}

// The same entries and one more at an index, in a list that no other table has.
fn with_entry(
    alloc: Global,
    entries: &[Rc<UserEntry>],
    at: usize,
    entry: Rc<UserEntry>,
) -> Result<Rc<Vec<Rc<UserEntry>>>, AllocError>
    requires { at ≤ length entries.now }
    ensures { IfOk result (λ list. entries_seen list.value.items ≡ insert (entries_seen entries.now) at (entry_seen entry.value)) }
{
    let mut list = copies_of(alloc, entries)?;
    insert_at(&mut list, at, entry)?;
    let shared = Rc::new(alloc, list)?;
    Ok(shared)
}

// Puts an entry in at an index of a list, or of a copy if another table has the list.
fn put_in(
    alloc: Global,
    list: &mut Rc<Vec<Rc<UserEntry>>>,
    at: usize,
    entry: Rc<UserEntry>,
) -> Result<(), AllocError>
    requires { at ≤ length list.old.value.items }
    ensures ok { OnOk result (entries_seen list.new.value.items ≡ insert (entries_seen list.old.value.items) at (entry_seen entry.value)) }
    ensures err { OnErr result (entries_seen list.new.value.items ≡ entries_seen list.old.value.items) }
{
    match Rc::get_mut(list) {
        Some(own) => insert_at(own, at, entry),
        None => {
            *list = with_entry(alloc, Rc::as_ref(list).as_slice(), at, entry)?;
            Ok(())
        }
    }
}

// At which index the entry of the same name is, or would be.
fn place_of(held: &Held, entry: &Rc<UserEntry>) -> Result<usize, usize>
    requires { NamesRise (held_seen held.now) }
    ensures found { IfOk result (IsAt (held_seen held.now) (entry_seen entry.now.value).0) }
    ensures absent { IfErr result (IsGapFor (held_seen held.now) (entry_seen entry.now.value).0) }
{
    search(slice_of(held), entry.as_ref().name.as_slice())
}

// Puts an entry in at an index, which is where its name belongs.
fn put(alloc: Global, held: &mut Held, at: usize, entry: &Rc<UserEntry>) -> Result<(), AllocError>
    requires rise { NamesRise (held_seen held.old) }
    requires gap { IsGapFor (held_seen held.old) (entry_seen entry.now.value).0 at }
    ensures rise { NamesRise (held_seen held.new) }
    ensures added { OnOk result (AddsEntry (entry_seen entry.now.value) (held_seen held.old) (held_seen held.new)) }
    ensures err { OnErr result (held_seen held.new ≡ held_seen held.old) }
{
    let copy = share_entry(entry)?;
    match held {
        Some(list) => put_in(alloc, list, at, copy),
        None => {
            let list = with_entry(alloc, &[], at, copy)?;
            *held = Some(list);
            Ok(())
        }
    }
}

/// Adds an entry, unless something is said about its name already.
pub(crate) fn add_entry(
    alloc: Global,
    held: &mut Held,
    entry: &Rc<UserEntry>,
) -> Result<(), AllocError>
    requires { NamesRise (held_seen held.old) }
    ensures rise { NamesRise (held_seen held.new) }
    ensures added { OnOk result (AddsEntry (entry_seen entry.now.value) (held_seen held.old) (held_seen held.new)) }
    ensures err { OnErr result (held_seen held.new ≡ held_seen held.old) }
{
    match place_of(held, entry) {
        Ok(_) => Ok(()),
        Err(at) => put(alloc, held, at, entry),
    }
}

// Adds the entries whose names nothing is said about yet.
fn add_entries(alloc: Global, held: &mut Held, entries: &[Rc<UserEntry>]) -> Result<(), AllocError>
    requires { NamesRise (held_seen held.old) }
    ensures rise { NamesRise (held_seen held.new) }
    ensures added { OnOk result (AddsEntries (entries_seen entries.now) (held_seen held.old) (held_seen held.new)) }
{
    for entry in entries {
        add_entry(alloc, held, entry)?;
    }
    Ok(())
}

// The same list, shared.
fn share_list(list: &Rc<Vec<Rc<UserEntry>>>) -> Result<Rc<Vec<Rc<UserEntry>>>, AllocError>
    ensures { IfOk result (λ same. same.value ≡ list.now.value) }
{
    let same = list.clone()?;
    Ok(same)
}

// Shares the entries of another table.
fn share(held: &mut Held, other: &Held) -> Result<(), AllocError>
    ensures shared { OnOk result (held_seen held.new ≡ held_seen other.now) }
    ensures err { OnErr result (held.new ≡ held.old) }
{
    match other {
        Some(list) => {
            let same = share_list(list)?;
            *held = Some(same);
            Ok(())
        }
        None => {
            *held = None;
            Ok(())
        }
    }
}

/// Adds the entries of another table whose names nothing is said about yet, and shares them all if
/// nothing is said so far.
pub(crate) fn add_all(alloc: Global, held: &mut Held, other: &Held) -> Result<(), AllocError>
    requires rise { NamesRise (held_seen held.old) }
    requires other { NamesRise (held_seen other.now) }
    ensures rise { NamesRise (held_seen held.new) }
    ensures added { OnOk result (AddsEntries (held_seen other.now) (held_seen held.old) (held_seen held.new)) }
    ensures err { OnErr result (held_seen held.new ≡ held_seen held.old) }
{
    if held.is_none() {
        return share(held, other);
    }
    // what memory is refused for in the midst of is not kept
    let mut all = None;
    share(&mut all, held)?;
    add_entries(alloc, &mut all, slice_of(other))?;
    *held = all;
    Ok(())
}

// Whether an entry is a cancel.
fn is_cancel(entry: &Rc<UserEntry>) -> bool
    ensures { result ≡ is_cancel (entry_seen entry.now.value).1 }
{
    match &entry.as_ref().value {
        Value::Cancelled => true,
        Value::True | Value::Number(_) | Value::Text(_) => false,
    }
}

// Whether one of the entries is a cancel.
fn has_cancel(entries: &[Rc<UserEntry>]) -> bool
    ensures { result ≡ list_any (λ e. is_cancel (entry_seen e.value).1) entries.now }
{
    entries.iter().any(|entry| is_cancel(entry))
}

// Whether the values of another table are all of its entries, and nothing is said so far.
fn can_share(held: &Held, other: &Held) -> bool
    ensures { result ≡ true → AddsValues (held_seen other.now) (held_seen held.now) (held_seen other.now) }
{
    match held {
        Some(_) => false,
        None => !has_cancel(slice_of(other)),
    }
}

// Adds an entry, unless it is a cancel or something is said about its name already.
fn add_value(alloc: Global, held: &mut Held, entry: &Rc<UserEntry>) -> Result<(), AllocError>
    requires { NamesRise (held_seen held.old) }
    ensures rise { NamesRise (held_seen held.new) }
    ensures added { OnOk result (AddsValue (entry_seen entry.now.value) (held_seen held.old) (held_seen held.new)) }
{
    if is_cancel(entry) {
        return Ok(());
    }
    add_entry(alloc, held, entry)
}

// Adds the entries that are no cancels and whose names nothing is said about yet.
fn add_each_value(
    alloc: Global,
    held: &mut Held,
    entries: &[Rc<UserEntry>],
) -> Result<(), AllocError>
    requires held { NamesRise (held_seen held.old) }
    requires entries { NamesRise (entries_seen entries.now) }
    ensures rise { NamesRise (held_seen held.new) }
    ensures added { OnOk result (AddsValues (entries_seen entries.now) (held_seen held.old) (held_seen held.new)) }
{
    for entry in entries {
        add_value(alloc, held, entry)?;
    }
    Ok(())
}

/// Adds the entries of another table that are no cancels and whose names nothing is said about yet,
/// and shares them all if nothing is said so far and none is a cancel.
pub(crate) fn add_values(alloc: Global, held: &mut Held, other: &Held) -> Result<(), AllocError>
    requires rise { NamesRise (held_seen held.old) }
    requires other { NamesRise (held_seen other.now) }
    ensures rise { NamesRise (held_seen held.new) }
    ensures added { OnOk result (AddsValues (held_seen other.now) (held_seen held.old) (held_seen held.new)) }
    ensures err { OnErr result (held_seen held.new ≡ held_seen held.old) }
{
    if can_share(held, other) {
        return share(held, other);
    }
    // what memory is refused for in the midst of is not kept
    let mut more = None;
    share(&mut more, held)?;
    add_each_value(alloc, &mut more, slice_of(other))?;
    *held = more;
    Ok(())
}
