//! The edited source, read by the rule of the leftmost mention.
ghost use Rattle.std.specs.Prelude.{◌≡◌, ◌<◌, ◌≤◌, [], length, map, slice_get, Some, option_map, IfOk};
ghost use Rattle.std.specs.Rc.{rc_slice_items};
ghost use Rattle.ti_source.specs.Reading.{fault_of, item_of};
ghost use Rattle.base_meaning.specs.Edits.{EditRun, change_of};

use crate::ruled::{RuledDatabase, run_by};
use base_meaning::{Edit, EditError, Edited, Fault, Outcome};
use std::alloc::{AllocError, Global};
use std::marker::Model;
use std::rc::RcSlice;
use ti_layout::Table;
use ti_source::{Item, Local, Rule};

/// A source of terminal descriptions as a list of blocks, which edits change one by one. It knows
/// the compiled entry of each block and all faults, which are those of the whole current source. An
/// edit makes anew what it touches and leaves the rest. Only edits, `faults`, `report`, `report_of`
/// and `line_starts` take memory.
#[derive(Drop)]
pub struct Database {
    ruled: RuledDatabase,
}

impl Model for Database {
    ghost use Rattle.std.specs.Prelude.{List, ℕ};

    ghost Value = { List (List ℕ) };

    ghost use Rattle.std.specs.Prelude.{◌≡◌};
    ghost use Rattle.ti_source.specs.declared.parsing.Rule.TheVariants.{Leftmost};

    ghost view = { λ d. d.ruled.texts };

    ghost invariant = { λ d. d.ruled.rule ≡ Leftmost };
}

impl Database {
    ghost use Rattle.base_meaning.specs.Owner.{owner, readings};
    ghost use Rattle.base_meaning.specs.Compiled.{compiled};
    ghost use Rattle.ti_source.specs.Cutting.{OneBlock};
    ghost use Rattle.ti_source.specs.Reading.{Reading};
    ghost use Rattle.ti_layout.specs.Values.{contents};
    ghost use Rattle.base_meaning.specs.ValueTables.{HasTable};
    ghost use Rattle.base_meaning.specs.Faults.{fault_seen, faults};
    ghost use Rattle.base_meaning.specs.Report.{lines_before, report};
    ghost use Rattle.std.specs.List.{range_with_len};
    ghost use Rattle.base_meaning.specs.Usable.{IsPlaced};
    ghost use Rattle.std.specs.Prelude.{All};
    ghost use Rattle.base_meaning.specs.Edits.{EditStep, change_of, insertion, removal, relocation, replacement, outcome_of};
    ghost use Rattle.ti_source.specs.declared.parsing.Rule.TheVariants.{Leftmost};
    ghost use Rattle.base_meaning.specs.Dependents.{Rebuilds};

    /// A source with no blocks. It takes no memory.
    pub fn new(alloc: Global) -> Database
        ensures { result ≡ [] }
    {
        Database {
            ruled: RuledDatabase::new(alloc, Rule::Leftmost),
        }
    }

    /// The source of a database whose rule is `Rule::Leftmost`.
    pub fn leftmost(ruled: RuledDatabase) -> Database
        requires { ruled.rule ≡ Leftmost }
        ensures { result ≡ ruled.texts }
    {
        Database { ruled }
    }

    /// The same source as one that is read by a rule, which is `Rule::Leftmost`.
    pub fn as_ruled(&self) -> &RuledDatabase
        ensures rule { result.now.rule ≡ Leftmost }
        ensures texts { result.now.texts ≡ self.now }
    {
        &self.ruled
    }

    /// How many blocks there are.
    pub fn len(&self) -> usize
        ensures { result ≡ length self.now }
    {
        self.ruled.len()
    }

    /// Each text is one block, since no edit puts in another. It computes nothing.
    pub fn each_is_one_block(&self)
        ensures { All OneBlock self.now }
    {
        self.ruled.each_is_one_block();
    }

    /// The text of a block.
    pub fn text(&self, at: usize) -> &[u8]
        requires { at < length self.now }
        ensures { slice_get self.now at ≡ Some result.now }
    {
        self.ruled.text(at)
    }

    /// The compiled entry of a block, as term(5) lays it out; `None` if the block does not resolve
    /// or its entry is over the limit.
    pub fn compiled(&self, at: usize) -> Option<&[u8]>
        requires { at < length self.now }
        ensures { option_map (λ bytes. bytes.now) result ≡ compiled self.now at }
    {
        self.ruled.compiled(at)
    }

    /// The lookup names of a block, in order. A name may be there twice.
    pub fn names(&self, at: usize) -> &[RcSlice<u8>]
        requires { at < length self.now }
        ensures { option_map (λ block. block.names) (slice_get (readings self.now) at) ≡ Some (map rc_slice_items result.now) }
    {
        self.ruled.names(at)
    }

    /// The accepted items of a block, in order.
    pub fn items(&self, at: usize) -> &[Item]
        requires { at < length self.now }
        ensures { option_map (λ block. block.items) (slice_get (readings self.now) at) ≡ Some (map item_of result.now) }
    {
        self.ruled.items(at)
    }

    /// The faults of a block that its own text gives: that of its names field, and then those of
    /// its items in order. What other blocks give is not among them.
    pub fn local_faults(&self, at: usize) -> &[Local]
        requires { at < length self.now }
        ensures { option_map (λ block. block.faults) (slice_get (readings self.now) at) ≡ Some (map fault_of result.now) }
    {
        self.ruled.local_faults(at)
    }

    /// What a block says once its uses are expanded: of each capability what the leftmost mention
    /// says, also that it is cancelled. `None` if the block does not resolve. A block whose entry
    /// is over the limit says it too.
    pub fn values(&self, at: usize) -> Option<&Table>
        requires { at < length self.now }
        ensures { (block : Reading) → slice_get (readings self.now) at ≡ Some block → HasTable contents (readings self.now) block (option_map (λ table. table.now) result) }
    {
        self.ruled.values(at)
    }

    /// The position of the first block that has the name among its lookup names, if one has it.
    pub fn owner(&self, name: &[u8]) -> Option<usize>
        ensures { result ≡ owner (readings self.now) name.now }
    {
        self.ruled.owner(name)
    }

    /// All faults, in the order of the blocks: for each block those of its header, one for each
    /// lookup name that an earlier block owns, those of its items in their order, and one if its
    /// entry is over the limit.
    ///
    /// # Errors
    /// `AllocError` if memory ran out.
    pub fn faults(&self) -> Result<Vec<Fault>, AllocError>
        ensures all { IfOk result (λ all. map fault_seen all.items ≡ faults (readings self.now)) }
        ensures placed { IfOk result (λ all. All (IsPlaced (length self.now)) (map fault_seen all.items)) }
    {
        self.ruled.faults()
    }

    /// The report of all faults: a line for each, with the line of the whole source that it is on,
    /// if the first line of the source has the number `first_line`.
    ///
    /// # Errors
    /// `AllocError` if memory ran out.
    pub fn report(&self, first_line: u64) -> Result<Vec<u8>, AllocError>
        requires { first_line ≤ 9223372036854775808 }
        ensures { IfOk result (λ text. text.items ≡ report self.now first_line) }
    {
        self.ruled.report(first_line)
    }

    /// The report, as `report` gives it, for a caller who has the faults that `faults` gave of this
    /// source.
    ///
    /// # Errors
    /// `AllocError` if memory ran out.
    pub fn report_of(&self, found: &[Fault], first_line: u64) -> Result<Vec<u8>, AllocError>
        requires all { map fault_seen found.now ≡ faults (readings self.now) }
        requires first { first_line ≤ 9223372036854775808 }
        ensures { IfOk result (λ text. text.items ≡ report self.now first_line) }
    {
        self.ruled.report_of(found, first_line)
    }

    /// How many lines are before each block, in list order: each line ends with a newline.
    ///
    /// # Errors
    /// `AllocError` if memory ran out.
    pub fn line_starts(&self) -> Result<Vec<u64>, AllocError>
        ensures starts { IfOk result (λ starts. starts.items ≡ map (lines_before self.now) (range_with_len 0 (length self.now))) }
        ensures small { IfOk result (λ starts. All (λ start. start ≤ 68719476736) starts.items) }
    {
        self.ruled.line_starts()
    }

    /// Puts a block in, so that it is then at `at`. The refusals, the first that holds: `Position`
    /// if `at` is past the end, `TooLong`, `NotOneBlock`, `TooMany`, and `Memory` if a growth was
    /// refused. After a refusal all is as before.
    pub fn insert(&mut self, at: usize, text: &[u8]) -> Result<Edited, EditError>
        ensures step { EditStep self.old (insertion at text.now) (outcome_of result) self.new }
        ensures rebuilds { IfOk result (λ edited. Rebuilds self.old (insertion at text.now) edited.rebuilt.items edited.work) }
    {
        self.apply(&Edit::Insert { at, text })
    }

    /// Replaces the block at `at`. The refusals, the first that holds: `Position` if there is no
    /// such block, `TooLong`, `NotOneBlock`, and `Memory` if a growth was refused. After a refusal
    /// all is as before.
    pub fn replace(&mut self, at: usize, text: &[u8]) -> Result<Edited, EditError>
        ensures step { EditStep self.old (replacement at text.now) (outcome_of result) self.new }
        ensures rebuilds { IfOk result (λ edited. Rebuilds self.old (replacement at text.now) edited.rebuilt.items edited.work) }
    {
        self.apply(&Edit::Replace { at, text })
    }

    /// Takes the block at `at` out. The refusals: `Position` if there is no such block, and
    /// `Memory` if a growth was refused. After a refusal all is as before.
    pub fn remove(&mut self, at: usize) -> Result<Edited, EditError>
        ensures step { EditStep self.old (removal at) (outcome_of result) self.new }
        ensures rebuilds { IfOk result (λ edited. Rebuilds self.old (removal at) edited.rebuilt.items edited.work) }
    {
        self.apply(&Edit::Remove { at })
    }

    /// Moves the block at `from`, so that it is then at `to`. The refusals: `Position` if no block
    /// is at `from` or none at `to`, and `Memory` if a growth was refused. After a refusal all is
    /// as before.
    pub fn relocate(&mut self, from: usize, to: usize) -> Result<Edited, EditError>
        ensures step { EditStep self.old (relocation from to) (outcome_of result) self.new }
        ensures rebuilds { IfOk result (λ edited. Rebuilds self.old (relocation from to) edited.rebuilt.items edited.work) }
    {
        self.apply(&Edit::Relocate { from, to })
    }

    /// Makes an edit: `insert`, `replace`, `remove` or `relocate`, with the refusals of that call.
    /// An accepted edit returns the positions of exactly the blocks that depend on it: the block
    /// put in, and each that reaches a name of that block or of the one taken out.
    pub fn apply(&mut self, edit: &Edit<'_>) -> Result<Edited, EditError>
        ensures step { EditStep self.old (change_of edit.now) (outcome_of result) self.new }
        ensures rebuilds { IfOk result (λ edited. Rebuilds self.old (change_of edit.now) edited.rebuilt.items edited.work) }
    {
        self.ruled.apply(edit)
    }
}

/// Makes the edits in order, beginning with no blocks, and says what came of each. A refused edit
/// leaves the list, and the next one follows. If there is no memory for an edit, it is refused with
/// `Memory`; for the outcomes, the whole call is, before the first edit. What there is to find out
/// about the blocks is found once, after the last edit, in a time that is linear, up to a
/// logarithm, in what the edits say and in the values of the last list. Only if memory was refused
/// for that is each edit made by itself, as `apply` makes it.
pub fn run(alloc: Global, edits: &[Edit<'_>]) -> Result<(Database, Vec<Outcome>), AllocError>
    ensures { IfOk result (λ r. EditRun [] (map change_of edits.now) r.1.items r.0) }
{
    let (ruled, outcomes) = run_by(alloc, Rule::Leftmost, edits)?;
    Ok((Database { ruled }, outcomes))
}
