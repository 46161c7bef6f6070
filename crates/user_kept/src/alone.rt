//! What one block says of user-defined names, without the tables of other blocks.
ghost use Rattle.std.specs.Prelude.{◌≡◌, ◌<◌, ℕ, List, Some, IfOk, IsSome, length, slice_get, true};
ghost use Rattle.user_items.specs.Reading.{said_of};
ghost use Rattle.user_items.specs.Verdicts.{imports};
ghost use Rattle.user_values.specs.Expansion.{expansion};
ghost use Rattle.user_values.specs.Tables.{AddsSaid, IsUserTableOf, names_at, said_at};
ghost use Rattle.user_kept.specs.inside.Adding.{AddsBlock};

use std::alloc::{AllocError, Global};
use ti_base::Database;
use user_items::{UserWhat, known_user_items};
use user_values::UserTable;

// How deep uses are followed.
const DEPTH: usize = 64;

// Adds what an item says, after those before it. False if the blocks that may be read do not
// suffice.
#[cycle(alone)]
fn add_item(
    alloc: Global,
    database: &Database,
    what: &UserWhat,
    depth: usize,
    left: &mut usize,
    table: &mut UserTable,
) -> Result<bool, AllocError>
    requires { (name : List ℕ) → said_of what.now ≡ imports name → IsSome (names_at database.now name) }
    ensures { IfOk result (λ done. done ≡ true → AddsSaid database.now (said_of what.now) (said_at table.old) (said_at table.new)) }
{
    match what {
        UserWhat::Says(name, value) => {
            table.add(alloc, name, value)?;
            Ok(true)
        }
        UserWhat::Import(name) => {
            let Some(at) = database.owner(name.as_slice()) else {
                unreachable!()
            };
            add_block(alloc, database, at, depth, left, table)
        }
    }
}

// Adds what the block at a position says. False if the blocks that may be read do not suffice.
#[cycle(alone)]
fn add_block(
    alloc: Global,
    database: &Database,
    at: usize,
    depth: usize,
    left: &mut usize,
    table: &mut UserTable,
) -> Result<bool, AllocError>
    requires within { at < length database.now }
    requires whole { (text : List ℕ) → slice_get database.now at ≡ Some text → IsSome (expansion database.now text) }
    ensures { IfOk result (λ done. done ≡ true → AddsBlock database.now at (said_at table.old) (said_at table.new)) }
{
    if depth == 0 || *left == 0 {
        return Ok(false);
    }
    *left -= 1;
    let read = known_user_items(
        alloc,
        database.text(at),
        database.items(at),
        database.local_faults(at),
    )?;
    for item in &read.items {
        if !add_item(alloc, database, &item.what, depth - 1, left, table)? {
            return Ok(false);
        }
    }
    Ok(true)
}

/// The table of the block at a position, which resolves, or none if more blocks are to be read for
/// it than may be, or one behind more uses than are followed. Each block that is read counts.
pub(crate) fn table_alone(
    alloc: Global,
    database: &Database,
    at: usize,
    left: &mut usize,
) -> Result<Option<UserTable>, AllocError>
    requires within { at < length database.now }
    requires whole { (text : List ℕ) → slice_get database.now at ≡ Some text → IsSome (expansion database.now text) }
    ensures { IfOk result (λ found. (table : UserTable) → found ≡ Some table → (text : List ℕ) → slice_get database.now at ≡ Some text → IsUserTableOf database.now text (said_at table)) }
{
    let mut table = UserTable::new();
    if add_block(alloc, database, at, DEPTH, left, &mut table)? {
        Ok(Some(table))
    } else {
        Ok(None)
    }
}
