//! Calls of `user_compiling` and `user_kept`: the entries and the report of the source that
//! `user.source` took, and of what edits make of it. What is kept from edit to edit is compared with
//! what is found anew.
use crate::edits::{cause_of, edit_at, edits_of, say_outcomes};
use crate::user::say_cause;
use std::alloc::{AllocError, Global};
use test_rows::RowError::Bad;
use test_rows::{NO_CALL, Row, RowResult, say_place};
use ti_base::Database;
use user_compiling::leftmost::{compile, faults, found_faults, report_of};
use user_compiling::{Compiled, Finding};
use user_kept::{KeptDatabase, run};
use user_values::ValuesError;

// What becomes of a block: its entry, `too-large` or `unresolved`.
fn word_of(state: &Compiled) -> &[u8] {
    match state {
        Compiled::Written(bytes) => bytes.as_slice(),
        Compiled::TooLarge => b"too-large",
        Compiled::Unresolved => b"unresolved",
    }
}

// Whether what becomes of each block is what becomes of it if all is made anew.
fn has_fresh_entries(alloc: Global, kept: &mut KeptDatabase) -> Result<bool, ValuesError> {
    let fresh = compile(alloc, kept.database())?;
    for (at, wanted) in fresh.iter().enumerate() {
        if at >= kept.len() {
            return Ok(false);
        }
        let state = kept.compiled(alloc, at)?;
        if word_of(&state) != word_of(wanted) {
            return Ok(false);
        }
    }
    Ok(true)
}

// What is found out about each block, one by one.
fn findings(
    alloc: Global,
    database: &Database,
    states: &[Compiled],
) -> Result<Vec<Finding>, AllocError> {
    let mut findings = Vec::new(alloc);
    for (at, state) in states.iter().enumerate() {
        if at < database.len() {
            findings.push(Finding::of(alloc, database.as_ruled(), at, state)?)?;
        }
    }
    Ok(findings)
}

// Whether this is the report if all is found anew, at once and for each block by itself.
fn is_report(alloc: Global, database: &Database, report: &[u8]) -> Result<bool, ValuesError> {
    let states = compile(alloc, database)?;
    let findings = findings(alloc, database, &states)?;
    if states.len() != database.len() || findings.len() != database.len() {
        return Ok(false);
    }
    let at_once = faults(alloc, database, &states)?;
    let one_by_one = found_faults(alloc, database, &findings)?;
    Ok(
        report_of(alloc, database, &at_once, 1)?.as_slice() == report
            && report_of(alloc, database, &one_by_one, 1)?.as_slice() == report,
    )
}

// The report, if it is found anew as it is kept, and each entry too.
fn report(alloc: Global, kept: &mut KeptDatabase) -> Result<Option<Vec<u8>>, ValuesError> {
    let found = kept.user_faults(alloc)?;
    let report = report_of(alloc, kept.database(), &found, 1)?;
    let same = is_report(alloc, kept.database(), &report)? && has_fresh_entries(alloc, kept)?;
    Ok(if same { Some(report) } else { None })
}

fn say_report(row: &mut Row<'_>, kept: &mut KeptDatabase) -> RowResult {
    match report(row.alloc, kept) {
        Ok(Some(report)) => row.say(&report),
        Ok(None) => Err(Bad("what is kept is not what is found anew")),
        Err(cause) => say_cause(row, cause),
    }
}

fn say_entry(row: &mut Row<'_>, kept: &mut KeptDatabase) -> RowResult {
    let at = row.count(0)?;
    if at >= kept.len() {
        return Err(Bad("there is no block at the position"));
    }
    match kept.compiled(row.alloc, at) {
        Ok(state) => row.say(word_of(&state)),
        Err(cause) => say_cause(row, cause),
    }
}

// The block, the line and the weight of each fault.
fn say_faults(row: &mut Row<'_>, kept: &mut KeptDatabase) -> RowResult {
    let found = match kept.user_faults(row.alloc) {
        Ok(found) => found,
        Err(cause) => return say_cause(row, cause),
    };
    for fault in &found {
        say_place(row, fault.block(), fault.line())?;
        row.say(if fault.is_error() { b"E" } else { b"W" })?;
    }
    Ok(())
}

// Takes the blocks that edits make of none.
fn run_edits(row: &mut Row<'_>, kept: &mut KeptDatabase) -> RowResult {
    let (made, outcomes) = run(row.alloc, &edits_of(row)?)?;
    *kept = made;
    say_outcomes(row, &outcomes)
}

// Makes an edit, and gives the report after it.
fn make_edit(row: &mut Row<'_>, kept: &mut KeptDatabase) -> RowResult {
    let (edit, _) = edit_at(row, 0)?;
    match kept.apply(&edit) {
        Ok(_) => say_report(row, kept),
        Err(cause) => row.fail(cause_of(cause)?),
    }
}

/// Makes a call of these libraries.
pub fn call(kept: &mut KeptDatabase, name: &str, row: &mut Row<'_>) -> RowResult {
    match name {
        "entry" => say_entry(row, kept),
        "faults" => say_faults(row, kept),
        "report" => say_report(row, kept),
        "edit" => make_edit(row, kept),
        "run" => run_edits(row, kept),
        _ => Err(NO_CALL),
    }
}
