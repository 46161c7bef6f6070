//! A table made of mentions of capabilities, of which the first of each decides.
ghost use Rattle.std.specs.Prelude.{◌≡◌, ◌<◌, ◌≤◌, [], length, All, Some, None, IfOk, OnOk, if◌then◌else◌};
ghost use Rattle.std.specs.Option.{option_or};
ghost use Rattle.ti_caps.specs.Tables.{Capability, IsCapability, same_capability};
ghost use Rattle.ti_layout.specs.Layout.{FitsTwoBytes};
ghost use Rattle.ti_layout.specs.inside.Mentions.{AreMentionPositions, recent_max};
ghost use Rattle.ti_layout.specs.Values.{contents, content_of, entries_of, Agrees, IsSorted};

use crate::merging::{copy_of, push_copy};
use crate::values::{Table, Value, rank};
use std::alloc::{AllocError, Global};
use std::marker::Model;
use ti_caps::{CAPABILITY_COUNT, Cap};

// This number of mentions, or more, is brought into order by a walk over the ranks of all
// capabilities; fewer are inserted one by one.
const MANY: usize = 24;

// For each capability, by its rank, one more than the position of its first mention; 0 if there is
// none.
fn first_positions(mentions: &[(Cap, Value)]) -> [u16; CAPABILITY_COUNT]
    requires few { FitsTwoBytes (length mentions.now) }
    ensures { AreMentionPositions (entries_of mentions.now) result }
{
    let mut positions = [0; CAPABILITY_COUNT];
    for (index, mention) in mentions.iter().enumerate() {
        let rank = rank(mention.0);
        if positions[rank] == 0 {
            positions[rank] = index as u16 + 1;
        }
    }
    positions
}

// The first mention of each capability, in the order of the entry. Strings are shared.
fn first_mentions(alloc: Global, mentions: &[(Cap, Value)]) -> Result<Vec<(Cap, Value)>, AllocError>
    requires few { FitsTwoBytes (length mentions.now) }
    requires agree { All (λ e. Agrees e.0 e.1) (entries_of mentions.now) }
    ensures sorted { IfOk result (λ v. IsSorted (entries_of v.items)) }
    ensures said { IfOk result (λ v. (c : Capability) → IsCapability c → contents (entries_of v.items) c ≡ contents (entries_of mentions.now) c) }
{
    let positions = first_positions(mentions);
    let mut entries = Vec::with_capacity(alloc, mentions.len().min(CAPABILITY_COUNT))?;
    for position in &positions {
        if *position > 0 {
            push_copy(&mut entries, &mentions[*position as usize - 1])?;
        }
    }
    Ok(entries)
}

// How many mentions there are when a table is made of them, so that those of a long block take no
// more memory than those of a short one.
const RECENT_MAX: usize = 1000;

// Adds what a table does not have yet, mention by mention.
fn insert_each(table: &mut Table, mentions: &[(Cap, Value)]) -> Result<(), AllocError>
    requires agree { All (λ e. Agrees e.0 e.1) (entries_of mentions.now) }
    ensures { OnOk result ((c : Capability) → IsCapability c → contents table.new c
        ≡ option_or (contents table.old c) (contents (entries_of mentions.now) c)) }
{
    for mention in mentions {
        table.set_if_absent(mention.0, copy_of(&mention.1)?)?;
    }
    Ok(())
}

// Adds what a table does not have yet, of mentions that are brought into order first.
fn merge_all(alloc: Global, table: &mut Table, mentions: &[(Cap, Value)]) -> Result<(), AllocError>
    requires few { FitsTwoBytes (length mentions.now) }
    requires agree { All (λ e. Agrees e.0 e.1) (entries_of mentions.now) }
    ensures { OnOk result ((c : Capability) → IsCapability c → contents table.new c
        ≡ option_or (contents table.old c) (contents (entries_of mentions.now) c)) }
{
    let added = Table::of_entries(first_mentions(alloc, mentions)?);
    if table.entries().is_empty() {
        *table = added;
        return Ok(());
    }
    table.merge(&added)
}

// Adds what a table does not have yet, by the shorter way, and leaves no mention.
fn settle(table: &mut Table, recent: &mut Vec<(Cap, Value)>) -> Result<(), AllocError>
    requires few { length recent.old.items ≤ recent_max }
    requires agree { All (λ e. Agrees e.0 e.1) (entries_of recent.old.items) }
    ensures none { OnOk result (recent.new.items ≡ []) }
    ensures few { length recent.new.items ≤ recent_max }
    ensures agree { All (λ e. Agrees e.0 e.1) (entries_of recent.new.items) }
    ensures merged { OnOk result ((c : Capability) → IsCapability c → contents table.new c
        ≡ option_or (contents table.old c) (contents (entries_of recent.old.items) c)) }
{
    if recent.len() < MANY {
        insert_each(table, recent)?;
    } else {
        merge_all(*recent.allocator(), table, recent)?;
    }
    recent.clear();
    Ok(())
}

/// Mentions of capabilities one after another, of which the first of each decides. A table is made
/// of them at the end.
#[derive(Drop)]
pub struct Mentions {
    // the table of the mentions before the recent ones
    table: Table,
    // the later mentions, in order
    recent: Vec<(Cap, Value)>,
}

impl Model for Mentions {
    ghost use Rattle.std.specs.Prelude.{◌≤◌, ◌++◌, length, All, List};
    ghost use Rattle.ti_layout.specs.inside.Mentions.{recent_max};
    ghost use Rattle.ti_layout.specs.Values.{Agrees, Mention, entries_of};

    ghost Value = { List Mention };

    ghost view = { λ m. m.table ++ entries_of m.recent.items };

    ghost invariant = { λ m. (length m.recent.items ≤ recent_max) × All (λ e. Agrees e.0 e.1) (entries_of m.recent.items) };
}

impl Mentions {
    /// None yet, with room for the given number. That it makes the room is in no clause: without it
    /// the calls are right, and slower.
    ///
    /// # Errors
    /// `AllocError` if memory ran out.
    #[tactic(auto, unfolding(crate::specs::Values::contents))]
    pub fn new(alloc: Global, room: usize) -> Result<Mentions, AllocError>
        ensures { IfOk result (λ m. (c : Capability) → contents m c ≡ None) }
    {
        Ok(Mentions {
            table: Table::new(alloc),
            recent: Vec::with_capacity(alloc, room.min(RECENT_MAX))?,
        })
    }

    /// One more mention, after the others: it decides if no mention before it is of the same
    /// capability. The kinds agree, a number is at most 2,147,483,647 and a string holds no NUL.
    ///
    /// # Errors
    /// `AllocError` if memory ran out.
    pub fn push(&mut self, cap: Cap, value: Value) -> Result<(), AllocError>
        requires { Agrees cap (content_of value) }
        ensures { OnOk result ((c : Capability) → IsCapability c → contents self.new c
            ≡ option_or (contents self.old c) (if same_capability cap c then Some (content_of value) else None)) }
    {
        if self.recent.len() >= RECENT_MAX {
            settle(&mut self.table, &mut self.recent)?;
        }
        self.recent.push((cap, value))?;
        Ok(())
    }

    /// Adds a mention of each value of a table, after the others.
    ///
    /// # Errors
    /// `AllocError` if memory ran out.
    pub fn merge(&mut self, used: &Table) -> Result<(), AllocError>
        ensures { OnOk result ((c : Capability) → IsCapability c → contents self.new c ≡ option_or (contents self.old c) (contents used.now c)) }
    {
        settle(&mut self.table, &mut self.recent)?;
        self.table.merge(used)
    }

    /// The table of the first mentions.
    ///
    /// # Errors
    /// `AllocError` if memory ran out.
    pub fn into_table(mut self) -> Result<Table, AllocError>
        ensures { IfOk result (λ t. (c : Capability) → IsCapability c → contents t c ≡ contents self c) }
    {
        settle(&mut self.table, &mut self.recent)?;
        Ok(self.table)
    }
}
