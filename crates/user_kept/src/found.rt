//! What is found out about one block.
ghost use Rattle.std.specs.Prelude.{◌≡◌, ◌<◌, ℕ, List, Some, IfOk, length, map, slice_get};
ghost use Rattle.user_compiling.specs.Entries.{IsStateOf, state_seen};
ghost use Rattle.user_items.specs.Parsing.{user_reading_of_text};
ghost use Rattle.user_items.specs.Reading.{user_item_of};
ghost use Rattle.user_values.specs.Limit.{names_of};
ghost use Rattle.user_kept.specs.inside.Kept.{IsRightOf};

use crate::alone::table_alone;
use std::alloc::{AllocError, Global};
use ti_base::Database;
use user_compiling::leftmost::{compile_with, finding_of};
use user_compiling::{Compiled, Finding};
use user_items::{UserItem, UserWhat, known_user_items};

/// How many blocks are read for one that is asked for or for those that depend on an edit, at most;
/// if that does not suffice, all is found out anew.
pub(crate) const BLOCKS_READ: usize = 4_096;

/// What becomes of the block at a position, or none if too many blocks are to be read for it.
pub(crate) fn state_alone(
    alloc: Global,
    database: &Database,
    at: usize,
    left: &mut usize,
) -> Result<Option<Compiled>, AllocError>
    requires { at < length database.now }
    ensures { IfOk result (λ found. (state : Compiled) → found ≡ Some state → (text : List ℕ) → slice_get database.now at ≡ Some text → IsStateOf database.now text (state_seen state)) }
{
    if database.values(at).is_none() {
        return Ok(Some(Compiled::Unresolved));
    }
    database.each_is_one_block();
    match table_alone(alloc, database, at, left)? {
        Some(user) => {
            let state = compile_with(alloc, database, at, &user)?;
            Ok(Some(state))
        }
        None => Ok(None),
    }
}

/// What is found out about the block at a position, or none if too many blocks are to be read.
pub(crate) fn find(
    alloc: Global,
    database: &Database,
    at: usize,
    left: &mut usize,
) -> Result<Option<Finding>, AllocError>
    requires { at < length database.now }
    ensures { IfOk result (λ found. (finding : Finding) → found ≡ Some finding → (text : List ℕ) → slice_get database.now at ≡ Some text → IsRightOf database.now text finding) }
{
    match state_alone(alloc, database, at, left)? {
        Some(state) => {
            let finding = finding_of(alloc, database, at, &state)?;
            Ok(Some(finding))
        }
        None => Ok(None),
    }
}

// How many items say something of a user-defined name.
fn count_says(items: &[UserItem]) -> usize
    ensures { result ≡ length (names_of (map user_item_of items.now)) }
{
    let mut count = 0;
    for item in items {
        if let UserWhat::Says(_, _) = &item.what {
            count += 1;
        }
    }
    count
}

/// How many items of the block at a position say something of a user-defined name.
pub(crate) fn says_at(alloc: Global, database: &Database, at: usize) -> Result<usize, AllocError>
    requires { at < length database.now }
    ensures { IfOk result (λ count. (text : List ℕ) → slice_get database.now at ≡ Some text → count ≡ length (names_of (user_reading_of_text text).items)) }
{
    let read = known_user_items(
        alloc,
        database.text(at),
        database.items(at),
        database.local_faults(at),
    )?;
    Ok(count_says(&read.items))
}
