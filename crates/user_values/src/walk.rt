//! The tables of the blocks of a source, made one after another.
ghost use Rattle.std.specs.Prelude.{◌≡◌, ◌<◌, ◌≤◌, ◌+◌, ℕ, List, Some, IfOk, OnOk, OnErr, IsErrOf, length, map, slice_get};
ghost use Rattle.ti_text.specs.Lists.{AreBelow};
ghost use Rattle.base_components.specs.Graph.{IsGraph};
ghost use Rattle.user_items.specs.Parsing.{user_reading_of_text};
ghost use Rattle.user_items.specs.Reading.{user_reading_of};
ghost use Rattle.user_values.specs.Limit.{name_count, name_limit, IsOverLimitAt};
ghost use Rattle.user_values.specs.Walking.{IsStartBy};
ghost use Rattle.user_values.specs.inside.Walking.{AreLast, DropsUnused, NotesUses};

use crate::fault::ValuesError;
use crate::graph::graph_of_uses;
use crate::limit::check_names;
use crate::table::UserTable;
use crate::values::{no_tables, read_all, table_at};
use base_components::{Components, Graph};
use std::alloc::{AllocError, Global};
use std::marker::Model;
use ti_base::RuledDatabase;
use user_items::UserItems;

// Notes a place at each block that the edges of a row lead to.
fn note_uses(row: &[Option<usize>], place: usize, last: &mut Vec<usize>)
    requires { (k to : ℕ) → slice_get row.now k ≡ Some (Some to) → to < length last.old.items }
    ensures { NotesUses row.now place last.old.items last.new.items }
{
    for edge in row {
        if let Some(to) = edge {
            last[*to] = place;
        }
    }
}

// For each block the last place of the order at which it is used; 0 if no block uses it.
fn last_uses(alloc: Global, uses: &Graph, order: &[usize]) -> Result<Vec<usize>, AllocError>
    requires whole { IsGraph uses.now }
    requires below { AreBelow order.now (length uses.now) }
    ensures { IfOk result (λ last. AreLast uses.now order.now last.items) }
{
    let mut last = Vec::with_capacity(alloc, uses.node_count())?;
    last.resize(uses.node_count(), 0)?;
    for (place, node) in order.iter().enumerate() {
        note_uses(uses.row(*node), place, &mut last);
    }
    Ok(last)
}

// Drops the tables of those blocks of a row that no block uses after so many have been made.
fn drop_unused(
    row: &[Option<usize>],
    last: &[usize],
    made: usize,
    tables: &mut Vec<Option<UserTable>>,
)
    requires within { (k to : ℕ) → slice_get row.now k ≡ Some (Some to) → to < length last.now }
    requires as_many { length tables.old.items ≡ length last.now }
    ensures { DropsUnused last.now made tables.old.items tables.new.items }
{
    for edge in row {
        if let Some(at) = edge {
            if last[*at] < made {
                tables[*at] = None;
            }
        }
    }
}

/// The tables of the blocks of a source, made one after another: that of a block that resolves after
/// those of the blocks that it uses. A table is kept as long as a block that uses it is still to
/// come.
#[derive(Drop)]
pub struct UserTables<'a> {
    alloc: Global,
    database: &'a RuledDatabase,
    reads: Vec<UserItems>,
    uses: Graph,
    components: Components,
    // For each block the last place of the order at which it is used.
    last: Vec<usize>,
    // The tables of blocks that are still to be used.
    tables: Vec<Option<UserTable>>,
    // The table that was made last, if no block is still to use it.
    latest: Option<UserTable>,
    made: usize,
}

impl<'a> Model for UserTables<'a> {
    ghost use Rattle.user_values.specs.Walking.{TablesSeen};
    ghost use Rattle.user_values.specs.inside.Walking.{AreUnderWay};

    ghost Value = { TablesSeen };

    ghost view = { λ t. record { rule = t.database.now.rule; texts = t.database.now.texts; order = t.components.order.items; made = t.made } };

    ghost invariant = { λ t. AreUnderWay t.database.now.rule t.database.now.texts t.reads.items t.uses t.components.component_of.items t.components.order.items t.last.items t.tables.items t.latest t.made };
}

// A walk that has made no table.
fn begin<'a>(
    alloc: Global,
    database: &'a RuledDatabase,
    reads: Vec<UserItems>,
) -> Result<UserTables<'a>, AllocError>
    requires { map user_reading_of reads.items ≡ map user_reading_of_text database.now.texts }
    ensures { IfOk result (λ tables. IsStartBy database.now.rule database.now.texts tables) }
{
    let uses = graph_of_uses(alloc, database, &reads)?;
    let components = Components::find(alloc, &uses)?;
    let last = last_uses(alloc, &uses, &components.order)?;
    let tables = no_tables(alloc, database.len())?;
    Ok(UserTables {
        alloc,
        database,
        reads,
        uses,
        components,
        last,
        tables,
        latest: None,
        made: 0,
    })
}

impl<'a> UserTables<'a> {
    ghost use Rattle.user_values.specs.Tables.{IsTableAtBy};
    ghost use Rattle.user_values.specs.Walking.{IsMadeLast, IsStartBy, MakesNext};

    /// Reads the blocks of a source, and chooses the order of their tables, but makes none yet: each
    /// block is in the order once, and a block that resolves comes after each block that it uses.
    /// The tables are by the rule of the source.
    ///
    /// # Errors
    /// `TooManyNames` for a source of more than 1,024 distinct user-defined names, with the
    /// position of the first block by which it has more; or `Memory`.
    pub fn of(alloc: Global, database: &'a RuledDatabase) -> Result<UserTables<'a>, ValuesError>
        ensures start { IfOk result (λ tables. IsStartBy database.now.rule database.now.texts tables) }
        ensures few { OnOk result (name_count database.now.texts (length database.now.texts) ≤ name_limit) }
        ensures too_many { (at : ℕ) → IsErrOf result (ValuesError.TooManyNames at) → IsOverLimitAt database.now.texts at }
    {
        let reads = read_all(alloc, database)?;
        match check_names(alloc, &reads) {
            Ok(_) => Ok(begin(alloc, database, reads)?),
            Err(error) => Err(error),
        }
    }

    /// Makes the next table of the order that `of` chose, and returns the position of its block;
    /// `None` after the last. So each block comes once, and a block that resolves comes after each
    /// block that it uses.
    ///
    /// # Errors
    /// Out of memory; then the next is still to be made.
    pub fn make_next(&mut self) -> Result<Option<usize>, AllocError>
        ensures next { IfOk result (λ at. MakesNext self.old at self.new) }
        ensures last { IfOk result (λ at. (here : ℕ) → at ≡ Some here → IsMadeLast self.new here) }
        ensures stays { OnErr result (self.new ≡ self.old) }
    {
        let Some(at) = self.components.order.get(self.made) else {
            return Ok(None);
        };
        let at = *at;
        let table = table_at(self.alloc, self.database, &self.tables, &self.reads, at)?;
        self.made += 1;
        drop_unused(self.uses.row(at), &self.last, self.made, &mut self.tables);
        if self.last[at] < self.made {
            self.latest = table;
        } else {
            self.tables[at] = table;
        }
        Ok(Some(at))
    }

    /// The table that was made last, which is that of the block at this position; `None` if the
    /// block does not resolve.
    pub fn table(&self, at: usize) -> &Option<UserTable>
        requires { IsMadeLast self.now at }
        ensures { IsTableAtBy self.now.rule self.now.texts at result.now }
    {
        if self.last[at] < self.made {
            &self.latest
        } else {
            &self.tables[at]
        }
    }
}
