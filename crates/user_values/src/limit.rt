//! How many user-defined names a source has.
ghost use Rattle.std.specs.Prelude.{◌≡◌, ◌<◌, ◌≤◌, ◌+◌, ℕ, [], List, length, map, take, is_some, IfOk, IsErrOf, OnOk};
ghost use Rattle.std.specs.Rc.{rc_slice_items};
ghost use Rattle.user_items.specs.Reading.{user_item_of, user_reading_of};
ghost use Rattle.user_items.specs.Parsing.{user_reading_of_text};
ghost use Rattle.user_values.specs.Limit.{name_count, IsOverLimitAt};
ghost use Rattle.user_values.specs.Limit.{name_limit, name_said, names_of, names_in, with_name, distinct_after};
ghost use Rattle.user_values.specs.Tables.{said_at};
ghost use Rattle.user_values.specs.inside.Counting.{AreFound, AreCounted};

use crate::fault::ValuesError;
use crate::names_found::NamesFound;
use crate::table::UserTable;
use crate::values::read_all;
use std::alloc::{AllocError, Global};
use std::rc::RcSlice;
use ti_base::RuledDatabase;
use ti_layout::Value;
use user_items::{UserItem, UserItems, UserWhat};

/// The most distinct user-defined names of a source.
pub const NAME_LIMIT: usize = 1024;

// Whether a name was found.
fn is_found(found: &NamesFound, name: &RcSlice<u8>) -> bool
    ensures { result ≡ is_some (said_at found.now.table (rc_slice_items name.now)) }
{
    found.table.get(name.as_slice()).is_some()
}

// Finds a name, unless it is one too many.
fn find_name(alloc: Global, name: &RcSlice<u8>, found: &mut NamesFound) -> Result<bool, AllocError>
    ensures { IfOk result (λ fits. (names : List (List ℕ)) → AreFound names found.old → AreCounted fits (with_name names (rc_slice_items name.now)) found.new) }
{
    if is_found(found, name) {
        return Ok(true);
    }
    if found.count >= NAME_LIMIT {
        return Ok(false);
    }
    found.table.add(alloc, name, &Value::True)?;
    found.count += 1;
    Ok(true)
}

// Finds the name of an item, if it says something of one, unless it is one too many.
fn find_item(alloc: Global, item: &UserItem, found: &mut NamesFound) -> Result<bool, AllocError>
    ensures { IfOk result (λ fits. (names : List (List ℕ)) → AreFound names found.old → AreCounted fits (distinct_after names (name_said (user_item_of item.now).said)) found.new) }
{
    match &item.what {
        UserWhat::Says(name, _) => find_name(alloc, name, found),
        UserWhat::Import(_) => Ok(true),
    }
}

// Finds the names of items, unless they are too many.
fn find_names(alloc: Global, items: &[UserItem], found: &mut NamesFound) -> Result<bool, AllocError>
    ensures { IfOk result (λ fits. (names : List (List ℕ)) → AreFound names found.old → AreCounted fits (distinct_after names (names_of (map user_item_of items.now))) found.new) }
{
    for item in items {
        if !find_item(alloc, item, found)? {
            return Ok(false);
        }
    }
    Ok(true)
}

/// How many names a source has, if these are no more than it may have.
pub(crate) fn check_names(alloc: Global, reads: &[UserItems]) -> Result<usize, ValuesError>
    ensures count { IfOk result (λ count. count ≡ length (distinct_after [] (names_in (map user_reading_of reads.now)))) }
    ensures few { OnOk result (length (distinct_after [] (names_in (map user_reading_of reads.now))) ≤ name_limit) }
    ensures too_many { (at : ℕ) → IsErrOf result (ValuesError.TooManyNames at) → (at < length reads.now)
        × (length (distinct_after [] (names_in (map user_reading_of (take at reads.now)))) ≤ name_limit)
        × (name_limit < length (distinct_after [] (names_in (map user_reading_of (take (at + 1) reads.now))))) }
{
    let mut found = NamesFound {
        table: UserTable::new(),
        count: 0,
    };
    for (at, read) in reads.iter().enumerate() {
        if !find_names(alloc, &read.items, &mut found)? {
            return Err(ValuesError::TooManyNames(at));
        }
    }
    Ok(found.count)
}

/// How many distinct user-defined names a source has.
///
/// # Errors
/// `TooManyNames` for a source of more than 1,024 of them, with the position of the first block by
/// which it has more; or `Memory`.
pub fn count_names(alloc: Global, database: &RuledDatabase) -> Result<usize, ValuesError>
    ensures count { IfOk result (λ count. count ≡ name_count database.now.texts (length database.now.texts)) }
    ensures few { OnOk result (name_count database.now.texts (length database.now.texts) ≤ name_limit) }
    ensures too_many { (at : ℕ) → IsErrOf result (ValuesError.TooManyNames at) → IsOverLimitAt database.now.texts at }
{
    let reads = read_all(alloc, database)?;
    check_names(alloc, &reads)
}
