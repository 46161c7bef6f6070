//! A database that keeps what was found out about the user-defined capabilities of its blocks.
ghost use Rattle.std.specs.Prelude.{◌≡◌, List, ℕ};

use crate::entry::state_at;
use crate::kept::{
    Kept, kept_after_insertion, kept_after_relocation, kept_after_removal, kept_after_replacement,
};
use std::alloc::{AllocError, Global};
use std::marker::Model;
use ti_base::{Database, Edit, EditError, Edited};
use user_compiling::leftmost::found_faults;
use user_compiling::{Compiled, ExtendedFault};
use user_values::ValuesError;

/// A database that keeps what was found out about the user-defined capabilities of its blocks. After
/// an edit only what depends on it is found out anew.
#[derive(Drop)]
pub struct KeptDatabase {
    alloc: Global,
    database: Database,
    // What was found out; none if that is still to be done.
    kept: Option<Kept>,
}

impl Model for KeptDatabase {
    ghost use Rattle.std.specs.Prelude.{List, ℕ, IfSome};
    ghost use Rattle.user_kept.specs.inside.Kept.{IsKeptOf};

    ghost Value = { List (List ℕ) };

    ghost view = { λ d. d.database };

    ghost invariant = { λ d. IfSome d.kept (IsKeptOf d.database) };
}

impl KeptDatabase {
    ghost use Rattle.std.specs.Prelude.{◌≤◌, ◌<◌, All, IfErr, IfOk, IsErrOf, OnOk, [], Some, length, map, slice_get};
    ghost use Rattle.base_meaning.specs.Compiled.{EntryState};
    ghost use Rattle.base_meaning.specs.Dependents.{Rebuilds};
    ghost use Rattle.base_meaning.specs.Edits.{EditStep, change_of, insertion, outcome_of, relocation, removal, replacement};
    ghost use Rattle.user_values.specs.Limit.{name_count, name_limit, IsOverLimitAt};
    ghost use Rattle.user_compiling.specs.Entries.{AreStates, IsStateOf, state_seen};
    ghost use Rattle.user_compiling.specs.Faults.{extended_faults, fault_seen};
    ghost use Rattle.user_compiling.specs.Report.{IsExtendedPlaced};
    ghost use Rattle.user_kept.specs.inside.Kept.{IsKeptOf};

    /// A source with no blocks. It takes no memory.
    pub fn new(alloc: Global) -> KeptDatabase
        ensures { result ≡ [] }
    {
        KeptDatabase::of(alloc, Database::new(alloc))
    }

    /// The source of a database, about which nothing is found out yet.
    pub fn of(alloc: Global, database: Database) -> KeptDatabase
        ensures { result ≡ database }
    {
        KeptDatabase {
            alloc,
            database,
            kept: None,
        }
    }

    /// The database.
    pub fn database(&self) -> &Database
        ensures { result.now ≡ self.now }
    {
        &self.database
    }

    /// How many blocks there are.
    pub fn len(&self) -> usize
        ensures { result ≡ length self.now }
    {
        self.database.len()
    }

    /// Replaces a block, as `Database::replace`. What was found out about the blocks that do not
    /// depend on that is kept.
    pub fn replace(&mut self, at: usize, text: &[u8]) -> Result<Edited, EditError>
        ensures step { EditStep self.old (replacement at text.now) (outcome_of result) self.new }
        ensures rebuilds { IfOk result (λ edited. Rebuilds self.old (replacement at text.now) edited.rebuilt.items edited.work) }
    {
        match self.database.replace(at, text) {
            Ok(edited) => {
                let old = self.kept.take();
                let rebuilt = edited.rebuilt.as_slice();
                self.kept = kept_after_replacement(self.alloc, &self.database, old, at, rebuilt);
                Ok(edited)
            }
            Err(error) => Err(error),
        }
    }

    /// Puts a block in, as `Database::insert`. What was found out is kept likewise.
    pub fn insert(&mut self, at: usize, text: &[u8]) -> Result<Edited, EditError>
        ensures step { EditStep self.old (insertion at text.now) (outcome_of result) self.new }
        ensures rebuilds { IfOk result (λ edited. Rebuilds self.old (insertion at text.now) edited.rebuilt.items edited.work) }
    {
        match self.database.insert(at, text) {
            Ok(edited) => {
                let old = self.kept.take();
                let rebuilt = edited.rebuilt.as_slice();
                self.kept = kept_after_insertion(self.alloc, &self.database, old, at, rebuilt);
                Ok(edited)
            }
            Err(error) => Err(error),
        }
    }

    /// Takes a block out, as `Database::remove`. What was found out is kept likewise.
    pub fn remove(&mut self, at: usize) -> Result<Edited, EditError>
        ensures step { EditStep self.old (removal at) (outcome_of result) self.new }
        ensures rebuilds { IfOk result (λ edited. Rebuilds self.old (removal at) edited.rebuilt.items edited.work) }
    {
        match self.database.remove(at) {
            Ok(edited) => {
                let old = self.kept.take();
                let rebuilt = edited.rebuilt.as_slice();
                self.kept = kept_after_removal(self.alloc, &self.database, old, at, rebuilt);
                Ok(edited)
            }
            Err(error) => Err(error),
        }
    }

    /// Moves a block, as `Database::relocate`. What was found out is kept likewise.
    pub fn relocate(&mut self, from: usize, to: usize) -> Result<Edited, EditError>
        ensures step { EditStep self.old (relocation from to) (outcome_of result) self.new }
        ensures rebuilds { IfOk result (λ edited. Rebuilds self.old (relocation from to) edited.rebuilt.items edited.work) }
    {
        match self.database.relocate(from, to) {
            Ok(edited) => {
                let old = self.kept.take();
                let rebuilt = edited.rebuilt.as_slice();
                self.kept = kept_after_relocation(
                    self.alloc,
                    &self.database,
                    old,
                    from,
                    to,
                    rebuilt,
                );
                Ok(edited)
            }
            Err(error) => Err(error),
        }
    }

    /// Makes an edit: `insert`, `replace`, `remove` or `relocate`, with the refusals of that call.
    pub fn apply(&mut self, edit: &Edit<'_>) -> Result<Edited, EditError>
        ensures step { EditStep self.old (change_of edit.now) (outcome_of result) self.new }
        ensures rebuilds { IfOk result (λ edited. Rebuilds self.old (change_of edit.now) edited.rebuilt.items edited.work) }
    {
        match *edit {
            Edit::Insert { at, text } => self.insert(at, text),
            Edit::Replace { at, text } => self.replace(at, text),
            Edit::Remove { at } => self.remove(at),
            Edit::Relocate { from, to } => self.relocate(from, to),
        }
    }

    // The faults by what was found out, which is kept.
    fn faults_by(&mut self, alloc: Global, kept: Kept) -> Result<Vec<ExtendedFault>, ValuesError>
        requires { IsKeptOf self.old kept }
        ensures same { self.new ≡ self.old }
        ensures all { IfOk result (λ all. (states : List EntryState) × AreStates self.old states × (map fault_seen all.items ≡ extended_faults self.old states)) }
        ensures placed { IfOk result (λ all. All (IsExtendedPlaced (length self.old)) (map fault_seen all.items)) }
        ensures memory { IfErr result (λ error. error ≡ ValuesError.Memory) }
    {
        let found = found_faults(alloc, &self.database, &kept.findings)?;
        self.kept = Some(kept);
        Ok(found)
    }

    /// The faults of the source with its user-defined capabilities, as `user_compiling::faults`
    /// gives them for what `user_compiling::compile` makes of it. What is found out is kept. No clause
    /// says so: only the time of the next call depends on it.
    ///
    /// # Errors
    /// `TooManyNames` or `Memory`, as of `user_compiling::compile`.
    pub fn user_faults(&mut self, alloc: Global) -> Result<Vec<ExtendedFault>, ValuesError>
        ensures same { self.new ≡ self.old }
        ensures all { IfOk result (λ all. (states : List EntryState) × AreStates self.old states × (map fault_seen all.items ≡ extended_faults self.old states)) }
        ensures placed { IfOk result (λ all. All (IsExtendedPlaced (length self.old)) (map fault_seen all.items)) }
        ensures few { OnOk result (name_count self.old (length self.old) ≤ name_limit) }
        ensures too_many { (at : ℕ) → IsErrOf result (ValuesError.TooManyNames at) → IsOverLimitAt self.old at }
    {
        match self.kept.take() {
            None => match Kept::of(self.alloc, &self.database) {
                Ok(kept) => self.faults_by(alloc, kept),
                Err(error) => Err(error),
            },
            Some(kept) => self.faults_by(alloc, kept),
        }
    }

    // What becomes of a block, while what was found out is kept.
    fn state_by(&mut self, alloc: Global, kept: Kept, at: usize) -> Result<Compiled, ValuesError>
        requires within { at < length self.old }
        requires kept { IsKeptOf self.old kept }
        ensures same { self.new ≡ self.old }
        ensures state { IfOk result (λ state. (text : List ℕ) → slice_get self.old at ≡ Some text → IsStateOf self.old text (state_seen state)) }
        ensures too_many { (place : ℕ) → IsErrOf result (ValuesError.TooManyNames place) → IsOverLimitAt self.old place }
    {
        let state = state_at(alloc, &self.database, at);
        self.kept = Some(kept);
        state
    }

    /// What becomes of the block at a position with its user-defined capabilities, as
    /// `user_compiling::compile` gives it of the source. It is made when it is asked for, from the
    /// blocks that the block uses, and is not kept.
    ///
    /// # Errors
    /// `TooManyNames` or `Memory`, as of `user_compiling::compile`.
    pub fn compiled(&mut self, alloc: Global, at: usize) -> Result<Compiled, ValuesError>
        requires { at < length self.old }
        ensures same { self.new ≡ self.old }
        ensures state { IfOk result (λ state. (text : List ℕ) → slice_get self.old at ≡ Some text → IsStateOf self.old text (state_seen state)) }
        ensures few { OnOk result (name_count self.old (length self.old) ≤ name_limit) }
        ensures too_many { (place : ℕ) → IsErrOf result (ValuesError.TooManyNames place) → IsOverLimitAt self.old place }
    {
        match self.kept.take() {
            None => match Kept::of(self.alloc, &self.database) {
                Ok(kept) => self.state_by(alloc, kept, at),
                Err(error) => Err(error),
            },
            Some(kept) => self.state_by(alloc, kept, at),
        }
    }
}
