//! The edited source, read by a rule: its blocks under stable ids, with what was found out about
//! each.
ghost use Rattle.std.specs.Prelude.{◌≡◌, ◌<◌, ◌≤◌, [], length, map, slice_get, Some, option_map, vec_capacity, IfOk};
ghost use Rattle.std.specs.Rc.{rc_slice_items};
ghost use Rattle.ti_source.specs.Reading.{fault_of, item_of};
ghost use Rattle.base_meaning.specs.Edits.{EditRun, change_of};
ghost use Rattle.base_slots.specs.Settled.{table_of};

use crate::faults::source_faults;
use crate::growing::run_at_once;
use crate::judging::judge;
use crate::owners::{find_owner, slot_of};
use crate::report::{line_starts, write_report};
use crate::slot_edits::edit_sound;
use base_meaning::{Edit, EditError, Edited, Fault, Outcome};
use base_slots::{Slots, State};
use std::alloc::{AllocError, Global};
use std::marker::Model;
use std::rc::RcSlice;
use ti_layout::Table;
use ti_source::{Item, Local, Rule};

// The values of a block, if it resolves.
fn table_of(state: &State) -> Option<&Table>
    ensures { option_map (λ table. table.now) result ≡ table_of state.now }
{
    match state {
        State::Unresolved => None,
        State::TooLarge(table) => Some(table),
        State::Compiled(entry) => Some(&entry.table),
    }
}

/// A source of terminal descriptions as a list of blocks, which edits change one by one. Each block
/// is read by one rule, which says which of its items and uses give its values. It knows the
/// compiled entry of each block and all faults, which are those of the whole current source. An
/// edit makes anew what it touches and leaves the rest.
#[derive(Drop)]
pub struct RuledDatabase {
    alloc: Global,
    rule: Rule,
    slots: Slots,
}

impl Model for RuledDatabase {
    ghost use Rattle.ti_base.specs.RuledTexts.{RuledTexts};

    ghost Value = { RuledTexts };

    ghost use Rattle.base_slots.specs.Slots.{slot_texts};
    ghost use Rattle.ti_base.specs.inside.Database.{AreKeptBy};

    ghost view = { λ d. record { rule = d.rule; texts = slot_texts d.slots } };

    ghost invariant = { λ d. AreKeptBy d.rule d.slots };
}

impl RuledDatabase {
    ghost use Rattle.base_meaning.specs.Owner.{owner, readings};
    ghost use Rattle.base_meaning.specs.Readings.{readings_by};
    ghost use Rattle.base_meaning.specs.Compiled.{compiled_by};
    ghost use Rattle.ti_source.specs.Cutting.{OneBlock};
    ghost use Rattle.ti_source.specs.Reading.{Reading};
    ghost use Rattle.ti_layout.specs.Values.{contents};
    ghost use Rattle.base_meaning.specs.ValueTables.{HasTable};
    ghost use Rattle.base_meaning.specs.Faults.{fault_seen, faults};
    ghost use Rattle.base_meaning.specs.Report.{lines_before, report_by};
    ghost use Rattle.std.specs.List.{range_with_len};
    ghost use Rattle.base_meaning.specs.Usable.{IsPlaced};
    ghost use Rattle.std.specs.Prelude.{All};
    ghost use Rattle.base_meaning.specs.Edits.{EditStep, change_of, insertion, removal, relocation, replacement, outcome_of};
    ghost use Rattle.base_meaning.specs.Dependents.{RebuildsBy};

    /// A source with no blocks, whose blocks are to be read by the rule. It takes no memory.
    pub fn new(alloc: Global, rule: Rule) -> RuledDatabase
        ensures rule { result.rule ≡ rule }
        ensures texts { result.texts ≡ [] }
    {
        RuledDatabase {
            alloc,
            rule,
            slots: Slots::new(alloc),
        }
    }

    /// The rule by which each block is read.
    pub fn rule(&self) -> Rule
        ensures { result ≡ self.now.rule }
    {
        self.rule
    }

    /// How many blocks there are.
    pub fn len(&self) -> usize
        ensures { result ≡ length self.now.texts }
    {
        self.slots.len()
    }

    /// Each text is one block, since no edit puts in another. It computes nothing.
    pub fn each_is_one_block(&self)
        ensures { All OneBlock self.now.texts }
    {
        let _ = &self.slots;
    }

    /// The text of a block.
    pub fn text(&self, at: usize) -> &[u8]
        requires { at < length self.now.texts }
        ensures { slice_get self.now.texts at ≡ Some result.now }
    {
        &slot_of(&self.slots, at).text
    }

    /// The compiled entry of a block, as term(5) lays it out; `None` if the block does not resolve
    /// or its entry is over the limit.
    pub fn compiled(&self, at: usize) -> Option<&[u8]>
        requires { at < length self.now.texts }
        ensures { option_map (λ bytes. bytes.now) result ≡ compiled_by self.now.rule self.now.texts at }
    {
        match &slot_of(&self.slots, at).settled.state {
            State::Compiled(entry) => Some(entry.image.bytes()),
            _ => None,
        }
    }

    /// The lookup names of a block, in order, by any rule the same. A name may be there twice.
    pub fn names(&self, at: usize) -> &[RcSlice<u8>]
        requires { at < length self.now.texts }
        ensures { option_map (λ block. block.names) (slice_get (readings self.now.texts) at) ≡ Some (map rc_slice_items result.now) }
    {
        &slot_of(&self.slots, at).block.names
    }

    /// The accepted items of a block, in order, by any rule the same.
    pub fn items(&self, at: usize) -> &[Item]
        requires { at < length self.now.texts }
        ensures { option_map (λ block. block.items) (slice_get (readings self.now.texts) at) ≡ Some (map item_of result.now) }
    {
        &slot_of(&self.slots, at).block.items
    }

    /// The faults of a block that its own text gives: that of its names field, and then those of
    /// its items in order. What other blocks give is not among them.
    pub fn local_faults(&self, at: usize) -> &[Local]
        requires { at < length self.now.texts }
        ensures { option_map (λ block. block.faults) (slice_get (readings self.now.texts) at) ≡ Some (map fault_of result.now) }
    {
        &slot_of(&self.slots, at).block.faults
    }

    /// What a block says once its uses are expanded: of each capability what the mention says that
    /// decides by the rule, also that it is cancelled. By `Rule::OwnFirst` only the block's own
    /// cancels are there, since none is passed on. `None` if the block does not resolve. A block
    /// whose entry is over the limit says it too.
    pub fn values(&self, at: usize) -> Option<&Table>
        requires { at < length self.now.texts }
        ensures { (block : Reading) → slice_get (readings_by self.now.rule self.now.texts) at ≡ Some block
            → HasTable contents (readings_by self.now.rule self.now.texts) block (option_map (λ table. table.now) result) }
    {
        table_of(&slot_of(&self.slots, at).settled.state)
    }

    /// The position of the first block that has the name among its lookup names, if one has it.
    pub fn owner(&self, name: &[u8]) -> Option<usize>
        ensures { result ≡ owner (readings self.now.texts) name.now }
    {
        find_owner(&self.slots, name)
    }

    /// All faults, in the order of the blocks: for each block those of its header, one for each
    /// lookup name that an earlier block owns, those of its items in their order, and one if its
    /// entry is over the limit.
    ///
    /// # Errors
    /// `AllocError` if memory ran out.
    pub fn faults(&self) -> Result<Vec<Fault>, AllocError>
        ensures all { IfOk result (λ all. map fault_seen all.items ≡ faults (readings_by self.now.rule self.now.texts)) }
        ensures placed { IfOk result (λ all. All (IsPlaced (length self.now.texts)) (map fault_seen all.items)) }
    {
        let faults = source_faults(self.alloc, &self.slots)?;
        Ok(faults)
    }

    /// The report of all faults: a line for each, with the line of the whole source that it is on,
    /// if the first line of the source has the number `first_line`.
    ///
    /// # Errors
    /// `AllocError` if memory ran out.
    pub fn report(&self, first_line: u64) -> Result<Vec<u8>, AllocError>
        requires { first_line ≤ 9223372036854775808 }
        ensures { IfOk result (λ text. text.items ≡ report_by self.now.rule self.now.texts first_line) }
    {
        let found = source_faults(self.alloc, &self.slots)?;
        let report = self.report_of(&found, first_line)?;
        Ok(report)
    }

    /// The report, as `report` gives it, for a caller who has the faults that `faults` gave of this
    /// source.
    ///
    /// # Errors
    /// `AllocError` if memory ran out.
    pub fn report_of(&self, found: &[Fault], first_line: u64) -> Result<Vec<u8>, AllocError>
        requires all { map fault_seen found.now ≡ faults (readings_by self.now.rule self.now.texts) }
        requires first { first_line ≤ 9223372036854775808 }
        ensures { IfOk result (λ text. text.items ≡ report_by self.now.rule self.now.texts first_line) }
    {
        let report = write_report(self.alloc, &self.slots, found, first_line)?;
        Ok(report)
    }

    /// How many lines are before each block, in list order: each line ends with a newline.
    ///
    /// # Errors
    /// `AllocError` if memory ran out.
    pub fn line_starts(&self) -> Result<Vec<u64>, AllocError>
        ensures starts { IfOk result (λ starts. starts.items ≡ map (lines_before self.now.texts) (range_with_len 0 (length self.now.texts))) }
        ensures small { IfOk result (λ starts. All (λ start. start ≤ 68719476736) starts.items) }
    {
        let starts = line_starts(self.alloc, &self.slots)?;
        Ok(starts)
    }

    /// Puts a block in, so that it is then at `at`. The refusals, the first that holds: `Position`
    /// if `at` is past the end, `TooLong`, `NotOneBlock`, `TooMany`, and `Memory` if a growth was
    /// refused. After a refusal all is as before.
    pub fn insert(&mut self, at: usize, text: &[u8]) -> Result<Edited, EditError>
        ensures rule { self.new.rule ≡ self.old.rule }
        ensures step { EditStep self.old.texts (insertion at text.now) (outcome_of result) self.new.texts }
        ensures rebuilds { IfOk result (λ edited. RebuildsBy self.old.rule self.old.texts (insertion at text.now) edited.rebuilt.items edited.work) }
    {
        self.apply(&Edit::Insert { at, text })
    }

    /// Replaces the block at `at`. The refusals, the first that holds: `Position` if there is no
    /// such block, `TooLong`, `NotOneBlock`, and `Memory` if a growth was refused. After a refusal
    /// all is as before.
    pub fn replace(&mut self, at: usize, text: &[u8]) -> Result<Edited, EditError>
        ensures rule { self.new.rule ≡ self.old.rule }
        ensures step { EditStep self.old.texts (replacement at text.now) (outcome_of result) self.new.texts }
        ensures rebuilds { IfOk result (λ edited. RebuildsBy self.old.rule self.old.texts (replacement at text.now) edited.rebuilt.items edited.work) }
    {
        self.apply(&Edit::Replace { at, text })
    }

    /// Takes the block at `at` out. The refusals: `Position` if there is no such block, and
    /// `Memory` if a growth was refused. After a refusal all is as before.
    pub fn remove(&mut self, at: usize) -> Result<Edited, EditError>
        ensures rule { self.new.rule ≡ self.old.rule }
        ensures step { EditStep self.old.texts (removal at) (outcome_of result) self.new.texts }
        ensures rebuilds { IfOk result (λ edited. RebuildsBy self.old.rule self.old.texts (removal at) edited.rebuilt.items edited.work) }
    {
        self.apply(&Edit::Remove { at })
    }

    /// Moves the block at `from`, so that it is then at `to`. The refusals: `Position` if no block
    /// is at `from` or none at `to`, and `Memory` if a growth was refused. After a refusal all is
    /// as before.
    pub fn relocate(&mut self, from: usize, to: usize) -> Result<Edited, EditError>
        ensures rule { self.new.rule ≡ self.old.rule }
        ensures step { EditStep self.old.texts (relocation from to) (outcome_of result) self.new.texts }
        ensures rebuilds { IfOk result (λ edited. RebuildsBy self.old.rule self.old.texts (relocation from to) edited.rebuilt.items edited.work) }
    {
        self.apply(&Edit::Relocate { from, to })
    }

    /// Makes an edit: `insert`, `replace`, `remove` or `relocate`, with the refusals of that call.
    pub fn apply(&mut self, edit: &Edit<'_>) -> Result<Edited, EditError>
        ensures rule { self.new.rule ≡ self.old.rule }
        ensures step { EditStep self.old.texts (change_of edit.now) (outcome_of result) self.new.texts }
        ensures rebuilds { IfOk result (λ edited. RebuildsBy self.old.rule self.old.texts (change_of edit.now) edited.rebuilt.items edited.work) }
    {
        judge(&self.slots, edit)?;
        let edited = edit_sound(self.alloc, self.rule, &mut self.slots, edit)?;
        Ok(edited)
    }
}

// The database that the edits make of no blocks, each made by `apply`, so that what one rebuilds
// takes no more memory than it needs.
fn run_one_by_one(
    alloc: Global,
    rule: Rule,
    edits: &[Edit<'_>],
    outcomes: &mut Vec<Outcome>,
) -> RuledDatabase
    requires empty { outcomes.old.items ≡ [] }
    requires room { length edits.now ≤ vec_capacity outcomes.old }
    ensures rule { result.rule ≡ rule }
    ensures run { EditRun [] (map change_of edits.now) outcomes.new.items result.texts }
{
    let mut database = RuledDatabase::new(alloc, rule);
    for edit in edits {
        outcomes.push_reserved(Outcome::from(database.apply(edit)));
    }
    database
}

/// Makes the edits in order, beginning with no blocks, each of which is read by the rule, and says
/// what came of each edit. A refused edit leaves the list, and the next one follows. Memory may run
/// out for the outcomes, before the first edit. What there is to find out about the blocks is found
/// once, after the last edit, in a time that is linear, up to a logarithm, in what the edits say
/// and in the values of the last list. Only if memory was refused for that is each edit made by
/// itself, as `apply` makes it.
///
/// # Errors
/// `AllocError` if memory ran out for the outcomes.
pub fn run_by(
    alloc: Global,
    rule: Rule,
    edits: &[Edit<'_>],
) -> Result<(RuledDatabase, Vec<Outcome>), AllocError>
    ensures rule { IfOk result (λ r. r.0.rule ≡ rule) }
    ensures run { IfOk result (λ r. EditRun [] (map change_of edits.now) r.1.items r.0.texts) }
{
    let mut outcomes = Vec::with_capacity(alloc, edits.len())?;
    if let Ok(slots) = run_at_once(alloc, rule, edits, &mut outcomes) {
        return Ok((RuledDatabase { alloc, rule, slots }, outcomes));
    }
    // The capacity stays.
    outcomes.clear();
    let database = run_one_by_one(alloc, rule, edits, &mut outcomes);
    Ok((database, outcomes))
}
