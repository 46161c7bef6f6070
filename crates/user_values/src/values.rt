//! The table of a block, made after those of the blocks that it uses.
ghost use Rattle.std.specs.Prelude.{◌≡◌, ◌<◌, ℕ, List, length, map, slice_get, Some, IfOk, OnOk, IsSome};
ghost use Rattle.ti_source.specs.declared.parsing.Rule.{Rule};
ghost use Rattle.ti_source.specs.declared.parsing.Rule.TheVariants.{Leftmost, OwnFirst};
ghost use Rattle.user_items.specs.Reading.{said_of, user_reading_of};
ghost use Rattle.user_items.specs.Verdicts.{imports};
ghost use Rattle.user_items.specs.Parsing.{user_reading_of_text};
ghost use Rattle.user_values.specs.Expansion.{expansion_by, is_use, own_items, use_items};
ghost use Rattle.user_values.specs.Tables.{said_at, HasUserTableBy, AddsSaidBy, IsUserTableBy};
ghost use Rattle.user_values.specs.inside.Settling.{IsTableOfBlock, IsTableOfItems, OwnerIsDone, OwnersAreDone};

use crate::table::UserTable;
use std::alloc::{AllocError, Global};
use ti_base::RuledDatabase;
use ti_source::Rule;
use user_items::{UserItems, UserWhat, known_user_items};

/// Each block as far as user-defined capabilities go.
pub(crate) fn read_all(
    alloc: Global,
    database: &RuledDatabase,
) -> Result<Vec<UserItems>, AllocError>
    ensures { IfOk result (λ reads. map user_reading_of reads.items ≡ map user_reading_of_text database.now.texts) }
{
    let mut reads = Vec::with_capacity(alloc, database.len())?;
    for at in 0..database.len() {
        let read = known_user_items(
            alloc,
            database.text(at),
            database.items(at),
            database.local_faults(at),
        )?;
        reads.push(read)?;
    }
    Ok(reads)
}

/// No table for each of so many blocks.
pub(crate) fn no_tables(alloc: Global, count: usize) -> Result<Vec<Option<UserTable>>, AllocError>
    ensures { IfOk result (λ tables. length tables.items ≡ count) }
{
    let mut tables = Vec::with_capacity(alloc, count)?;
    for _at in 0..count {
        tables.push(None)?;
    }
    Ok(tables)
}

// Says what the owner of a name says, of which nothing is said yet.
fn merge_owner(
    alloc: Global,
    database: &RuledDatabase,
    tables: &[Option<UserTable>],
    name: &[u8],
    table: &mut UserTable,
) -> Result<(), AllocError>
    ghost rule: { Rule }
    requires { OwnerIsDone rule database.now.texts tables.now name.now }
    ensures { OnOk result (AddsSaidBy rule database.now.texts (imports name.now) (said_at table.old) (said_at table.new)) }
{
    let Some(at) = database.owner(name) else {
        unreachable!()
    };
    let Some(owner) = &tables[at] else {
        unreachable!()
    };
    table.merge(alloc, owner)
}

// Adds what an item says, after those before it.
fn add_item(
    alloc: Global,
    database: &RuledDatabase,
    tables: &[Option<UserTable>],
    what: &UserWhat,
    table: &mut UserTable,
) -> Result<(), AllocError>
    ghost rule: { Rule }
    requires { (name : List ℕ) → said_of what.now ≡ imports name → OwnerIsDone rule database.now.texts tables.now name }
    ensures { OnOk result (AddsSaidBy rule database.now.texts (said_of what.now) (said_at table.old) (said_at table.new)) }
{
    match what {
        UserWhat::Says(name, value) => table.add(alloc, name, value),
        UserWhat::Import(name) => merge_owner(alloc, database, tables, name.as_slice(), table),
    }
}

// What the items of a block say, if the leftmost mentions decide.
fn leftmost_table(
    alloc: Global,
    database: &RuledDatabase,
    tables: &[Option<UserTable>],
    read: &UserItems,
) -> Result<UserTable, AllocError>
    requires { OwnersAreDone Leftmost database.now.texts tables.now (user_reading_of read.now).items }
    ensures { IfOk result (λ table. IsTableOfBlock Leftmost database.now.texts (user_reading_of read.now).items (said_at table)) }
{
    let mut table = UserTable::new();
    for item in &read.items {
        add_item(alloc, database, tables, &item.what, &mut table)?;
    }
    Ok(table)
}

// Whether an item uses another entry.
fn is_use(what: &UserWhat) -> bool
    ensures { result ≡ is_use (said_of what.now) }
{
    match what {
        UserWhat::Import(_) => true,
        UserWhat::Says(_, _) => false,
    }
}

// What the uses of a block say, the first first.
fn used_table(
    alloc: Global,
    database: &RuledDatabase,
    tables: &[Option<UserTable>],
    read: &UserItems,
) -> Result<UserTable, AllocError>
    requires { OwnersAreDone OwnFirst database.now.texts tables.now (user_reading_of read.now).items }
    ensures { IfOk result (λ table. IsTableOfItems OwnFirst database.now.texts (use_items (user_reading_of read.now).items) (said_at table)) }
{
    let mut used = UserTable::new();
    for item in &read.items {
        if is_use(&item.what) {
            add_item(alloc, database, tables, &item.what, &mut used)?;
        }
    }
    Ok(used)
}

// What a block says itself, the last first.
fn own_table(
    alloc: Global,
    database: &RuledDatabase,
    tables: &[Option<UserTable>],
    read: &UserItems,
) -> Result<UserTable, AllocError>
    requires { OwnersAreDone OwnFirst database.now.texts tables.now (user_reading_of read.now).items }
    ensures { IfOk result (λ table. IsTableOfItems OwnFirst database.now.texts (own_items (user_reading_of read.now).items) (said_at table)) }
{
    let count = read.items.len();
    let mut own = UserTable::new();
    for done in 0..count {
        let index = count - 1 - done;
        let item = &read.items[index];
        if !is_use(&item.what) {
            add_item(alloc, database, tables, &item.what, &mut own)?;
        }
    }
    Ok(own)
}

// What the items of a block say, if what it says itself decides before what its uses say.
fn own_first_table(
    alloc: Global,
    database: &RuledDatabase,
    tables: &[Option<UserTable>],
    read: &UserItems,
) -> Result<UserTable, AllocError>
    requires { OwnersAreDone OwnFirst database.now.texts tables.now (user_reading_of read.now).items }
    ensures { IfOk result (λ table. IsTableOfBlock OwnFirst database.now.texts (user_reading_of read.now).items (said_at table)) }
{
    let used = used_table(alloc, database, tables, read)?;
    let mut table = own_table(alloc, database, tables, read)?;
    table.merge_values(alloc, &used)?;
    Ok(table)
}

// What the items of a block say by a rule.
fn items_table(
    alloc: Global,
    database: &RuledDatabase,
    rule: Rule,
    tables: &[Option<UserTable>],
    read: &UserItems,
) -> Result<UserTable, AllocError>
    requires { OwnersAreDone rule database.now.texts tables.now (user_reading_of read.now).items }
    ensures { IfOk result (λ table. IsTableOfBlock rule database.now.texts (user_reading_of read.now).items (said_at table)) }
{
    match rule {
        Rule::Leftmost => leftmost_table(alloc, database, tables, read),
        Rule::OwnFirst => own_first_table(alloc, database, tables, read),
    }
}

// The table of a block that resolves, by the rule of the source.
fn make_table(
    alloc: Global,
    database: &RuledDatabase,
    tables: &[Option<UserTable>],
    reads: &[UserItems],
    at: usize,
) -> Result<UserTable, AllocError>
    requires within { at < length database.now.texts }
    requires reads { map user_reading_of reads.now ≡ map user_reading_of_text database.now.texts }
    requires whole { (text : List ℕ) → slice_get database.now.texts at ≡ Some text → IsSome (expansion_by database.now.rule database.now.texts text) }
    requires owners { (text : List ℕ) → slice_get database.now.texts at ≡ Some text → OwnersAreDone database.now.rule database.now.texts tables.now (user_reading_of_text text).items }
    ensures { IfOk result (λ table. (text : List ℕ) → slice_get database.now.texts at ≡ Some text → IsUserTableBy database.now.rule database.now.texts text (said_at table)) }
{
    items_table(alloc, database, database.rule(), tables, &reads[at])
}

/// The table of a block, if it resolves, by the rule of the source.
pub(crate) fn table_at(
    alloc: Global,
    database: &RuledDatabase,
    tables: &[Option<UserTable>],
    reads: &[UserItems],
    at: usize,
) -> Result<Option<UserTable>, AllocError>
    requires within { at < length database.now.texts }
    requires reads { map user_reading_of reads.now ≡ map user_reading_of_text database.now.texts }
    requires owners { (text : List ℕ) → slice_get database.now.texts at ≡ Some text → IsSome (expansion_by database.now.rule database.now.texts text)
        → OwnersAreDone database.now.rule database.now.texts tables.now (user_reading_of_text text).items }
    ensures { IfOk result (λ table. (text : List ℕ) → slice_get database.now.texts at ≡ Some text → HasUserTableBy database.now.rule database.now.texts text table) }
{
    // A block has user-defined values exactly where it has values of the tables.
    if database.values(at).is_none() {
        return Ok(None);
    }
    let table = make_table(alloc, database, tables, reads, at)?;
    Ok(Some(table))
}
