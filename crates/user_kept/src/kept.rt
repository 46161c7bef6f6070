//! What is kept of a source, and what remains of it after an edit.
ghost use Rattle.std.specs.Prelude.{◌≡◌, ◌<◌, ◌≤◌, ℕ, List, All, IfOk, IfSome, IsErrOf, OnOk, length, true};
ghost use Rattle.base_meaning.specs.Edits.{insertion, relocation, removal, replacement};
ghost use Rattle.user_values.specs.Limit.{name_count, name_limit, IsOverLimitAt};
ghost use Rattle.user_kept.specs.inside.Kept.{AreRight, AreRightOff, IsKeptBefore, IsKeptOf};

use crate::found::{BLOCKS_READ, find, says_at};
use crate::leftmost::count_names;
use std::alloc::{AllocError, Global};
use ti_base::Database;
use user_compiling::Finding;
use user_compiling::leftmost::{compile, findings_of};
use user_values::{NAME_LIMIT, ValuesError};

/// What is kept of a source that has no more user-defined names than it may.
#[derive(Drop)]
pub(crate) struct Kept {
    // What was found out about each block.
    pub(crate) findings: Vec<Finding>,
    // No fewer than the distinct user-defined names.
    pub(crate) names: usize,
}

// What is found out about each block of a source.
fn find_all(alloc: Global, database: &Database) -> Result<Vec<Finding>, ValuesError>
    ensures right { IfOk result (λ findings. AreRight database.now findings.items) }
    ensures too_many { (at : ℕ) → IsErrOf result (ValuesError.TooManyNames at) → IsOverLimitAt database.now at }
{
    match compile(alloc, database) {
        Ok(compiled) => {
            let findings = findings_of(alloc, database, &compiled)?;
            Ok(findings)
        }
        Err(error) => Err(error),
    }
}

// Finds out anew about the blocks at these positions. False if too many blocks are to be read.
fn find_again(
    alloc: Global,
    database: &Database,
    places: &[usize],
    findings: &mut Vec<Finding>,
) -> Result<bool, AllocError>
    requires as_many { length findings.old.items ≡ length database.now }
    requires within { All (λ at. at < length database.now) places.now }
    requires right { AreRightOff database.now places.now findings.old.items }
    ensures { IfOk result (λ done. done ≡ true → AreRight database.now findings.new.items) }
{
    let mut left = BLOCKS_READ;
    for at in places {
        match find(alloc, database, *at, &mut left)? {
            Some(finding) => findings[*at] = finding,
            None => return Ok(false),
        }
    }
    Ok(true)
}

// What is kept once it is found out anew about the blocks at these positions. None if too many blocks
// are to be read.
fn found_again(
    alloc: Global,
    database: &Database,
    places: &[usize],
    findings: Vec<Finding>,
    names: usize,
) -> Result<Option<Kept>, AllocError>
    requires as_many { length findings.items ≡ length database.now }
    requires within { All (λ at. at < length database.now) places.now }
    requires right { AreRightOff database.now places.now findings.items }
    requires names { name_count database.now (length database.now) ≤ names }
    requires few { names ≤ name_limit }
    ensures { IfOk result (λ kept. IfSome kept (IsKeptOf database.now)) }
{
    let mut findings = findings;
    if find_again(alloc, database, places, &mut findings)? {
        Ok(Some(Kept { findings, names }))
    } else {
        Ok(None)
    }
}

impl Kept {
    /// What is kept of a source.
    ///
    /// # Errors
    /// `TooManyNames` or `Memory`, as of `user_compiling::compile`.
    pub(crate) fn of(alloc: Global, database: &Database) -> Result<Kept, ValuesError>
        ensures kept { IfOk result (IsKeptOf database.now) }
        ensures too_many { (at : ℕ) → IsErrOf result (ValuesError.TooManyNames at) → IsOverLimitAt database.now at }
    {
        match count_names(alloc, database) {
            Ok(names) => match find_all(alloc, database) {
                Ok(findings) => Ok(Kept { findings, names }),
                Err(error) => Err(error),
            },
            Err(error) => Err(error),
        }
    }

    // What remains once the block at a position is replaced, with what is found out anew about the
    // blocks that depend on that. None if that is too much.
    fn after_replacement(
        self,
        alloc: Global,
        database: &Database,
        at: usize,
        rebuilt: &[usize],
    ) -> Result<Option<Kept>, AllocError>
        requires { IsKeptBefore database.now (replacement at) rebuilt.now self }
        ensures { IfOk result (λ kept. IfSome kept (IsKeptOf database.now)) }
    {
        // A law, with no code: a block that does not depend on an edit says what it said.
        crate::laws::untouched_blocks_say_the_same();
        let names = self.names.saturating_add(says_at(alloc, database, at)?);
        if names > NAME_LIMIT {
            return Ok(None);
        }
        found_again(alloc, database, rebuilt, self.findings, names)
    }

    // The same once a block is put in at a position.
    fn after_insertion(
        self,
        alloc: Global,
        database: &Database,
        at: usize,
        rebuilt: &[usize],
    ) -> Result<Option<Kept>, AllocError>
        requires { IsKeptBefore database.now (insertion at) rebuilt.now self }
        ensures { IfOk result (λ kept. IfSome kept (IsKeptOf database.now)) }
    {
        crate::laws::untouched_blocks_say_the_same();
        let names = self.names.saturating_add(says_at(alloc, database, at)?);
        if names > NAME_LIMIT {
            return Ok(None);
        }
        let mut left = BLOCKS_READ;
        let Some(finding) = find(alloc, database, at, &mut left)? else {
            return Ok(None);
        };
        let mut findings = self.findings;
        findings.insert(at, finding)?;
        found_again(alloc, database, rebuilt, findings, names)
    }

    // The same once the block at a position is taken out.
    fn after_removal(
        self,
        alloc: Global,
        database: &Database,
        at: usize,
        rebuilt: &[usize],
    ) -> Result<Option<Kept>, AllocError>
        requires { IsKeptBefore database.now (λ _. removal at) rebuilt.now self }
        ensures { IfOk result (λ kept. IfSome kept (IsKeptOf database.now)) }
    {
        crate::laws::untouched_blocks_say_the_same();
        let mut findings = self.findings;
        findings.remove(at);
        found_again(alloc, database, rebuilt, findings, self.names)
    }

    // The same once a block is moved.
    fn after_relocation(
        self,
        alloc: Global,
        database: &Database,
        from: usize,
        to: usize,
        rebuilt: &[usize],
    ) -> Result<Option<Kept>, AllocError>
        requires { IsKeptBefore database.now (λ _. relocation from to) rebuilt.now self }
        ensures { IfOk result (λ kept. IfSome kept (IsKeptOf database.now)) }
    {
        crate::laws::untouched_blocks_say_the_same();
        let names = self.names.saturating_add(says_at(alloc, database, to)?);
        if names > NAME_LIMIT {
            return Ok(None);
        }
        let mut findings = self.findings;
        let finding = findings.remove(from);
        findings.insert(to, finding)?;
        found_again(alloc, database, rebuilt, findings, names)
    }
}

/// What remains of what was kept once the block at a position is replaced and these are rebuilt. If
/// memory is short, all is found out anew when it is asked for.
pub(crate) fn kept_after_replacement(
    alloc: Global,
    database: &Database,
    old: Option<Kept>,
    at: usize,
    rebuilt: &[usize],
) -> Option<Kept>
    requires { IfSome old (IsKeptBefore database.now (replacement at) rebuilt.now) }
    ensures { IfSome result (IsKeptOf database.now) }
{
    match old {
        None => None,
        Some(kept) => kept
            .after_replacement(alloc, database, at, rebuilt)
            .unwrap_or(None),
    }
}

/// The same once a block is put in at a position.
pub(crate) fn kept_after_insertion(
    alloc: Global,
    database: &Database,
    old: Option<Kept>,
    at: usize,
    rebuilt: &[usize],
) -> Option<Kept>
    requires { IfSome old (IsKeptBefore database.now (insertion at) rebuilt.now) }
    ensures { IfSome result (IsKeptOf database.now) }
{
    match old {
        None => None,
        Some(kept) => kept
            .after_insertion(alloc, database, at, rebuilt)
            .unwrap_or(None),
    }
}

/// The same once the block at a position is taken out.
pub(crate) fn kept_after_removal(
    alloc: Global,
    database: &Database,
    old: Option<Kept>,
    at: usize,
    rebuilt: &[usize],
) -> Option<Kept>
    requires { IfSome old (IsKeptBefore database.now (λ _. removal at) rebuilt.now) }
    ensures { IfSome result (IsKeptOf database.now) }
{
    match old {
        None => None,
        Some(kept) => kept
            .after_removal(alloc, database, at, rebuilt)
            .unwrap_or(None),
    }
}

/// The same once a block is moved.
pub(crate) fn kept_after_relocation(
    alloc: Global,
    database: &Database,
    old: Option<Kept>,
    from: usize,
    to: usize,
    rebuilt: &[usize],
) -> Option<Kept>
    requires { IfSome old (IsKeptBefore database.now (λ _. relocation from to) rebuilt.now) }
    ensures { IfSome result (IsKeptOf database.now) }
{
    match old {
        None => None,
        Some(kept) => kept
            .after_relocation(alloc, database, from, to, rebuilt)
            .unwrap_or(None),
    }
}
