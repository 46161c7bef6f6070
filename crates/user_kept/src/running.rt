//! A list of edits, beginning with no blocks.
ghost use Rattle.std.specs.Prelude.{◌≡◌, ◌≤◌, [], IfOk, length, map, vec_capacity};
ghost use Rattle.base_meaning.specs.Edits.{EditRun, change_of};

use crate::database::KeptDatabase;
use std::alloc::{AllocError, Global};
use ti_base::{Edit, Outcome};

// The database that the edits make of no blocks.
fn run_each(alloc: Global, edits: &[Edit<'_>], outcomes: &mut Vec<Outcome>) -> KeptDatabase
    requires empty { outcomes.old.items ≡ [] }
    requires room { length edits.now ≤ vec_capacity outcomes.old }
    ensures { EditRun [] (map change_of edits.now) outcomes.new.items result }
{
    let mut database = KeptDatabase::new(alloc);
    for edit in edits {
        outcomes.push_reserved(Outcome::from(database.apply(edit)));
    }
    database
}

/// Makes the edits in order, beginning with no blocks, and says what came of each, as
/// `ti_base::run`. So the errors and warnings of the database, and what becomes of each of its
/// blocks, are those of the last list of blocks, whatever the edits were.
///
/// # Errors
/// Out of memory for the outcomes, before the first edit.
pub fn run(alloc: Global, edits: &[Edit<'_>]) -> Result<(KeptDatabase, Vec<Outcome>), AllocError>
    ensures { IfOk result (λ r. EditRun [] (map change_of edits.now) r.1.items r.0) }
{
    let mut outcomes = Vec::with_capacity(alloc, edits.len())?;
    let database = run_each(alloc, edits, &mut outcomes);
    Ok((database, outcomes))
}
