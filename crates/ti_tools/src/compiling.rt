//! Compiling a source into files.
ghost use Rattle.std.specs.Prelude.{◌≡◌, ◌≤◌, ◌^◌, IfOk, map};
ghost use Rattle.std.specs.List.{list_any};
ghost use Rattle.std.specs.String.{string_bytes};
ghost use Rattle.ti_source.specs.Code.{is_error};
ghost use Rattle.base_meaning.specs.Faults.{fault_seen};
ghost use Rattle.ti_tools.specs.Compiling.{IsCompiled, IsTicAnswer, compilation, compilation_of, fault_status};

use crate::entry_files::entry_files;
use crate::outcome::{TicOptions, TicOutcome};
use crate::sources::refusal;
use std::alloc::{AllocError, Global};
use ti_base::{Database, EditError, Fault};
use tools_devices::ToolError;
use tools_sources::{database_of, first_line};

// Whether one of the faults is an error.
fn has_error(faults: &[Fault]) -> bool
    ensures { result ≡ list_any (λ fault. is_error fault.code) faults.now }
{
    faults.iter().any(|fault| fault.code.is_error())
}

// The status of a run with these faults: 1 if one of them is an error.
fn report_status(faults: &[Fault]) -> u8
    ensures { result ≡ fault_status (map fault_seen faults.now) }
{
    if has_error(faults) { 1 } else { 0 }
}

// What comes of the blocks that the database holds, of which the first begins on the line of that
// number.
fn outcome(
    alloc: Global,
    database: &Database,
    first_line: u64,
    options: &TicOptions,
) -> Result<TicOutcome, AllocError>
    requires { first_line ≤ 2 ^ 63 }
    ensures { IfOk result (λ outcome. compilation_of outcome ≡ compilation options.now.check
        (string_bytes options.now.dir) first_line database.now) }
{
    let faults = database.faults()?;
    let report = database.report_of(faults.as_slice(), first_line)?;
    let files = if options.check {
        Vec::new(alloc)
    } else {
        entry_files(alloc, database, options.dir.as_str())?
    };
    Ok(TicOutcome {
        files,
        report,
        status: report_status(faults.as_slice()),
    })
}

// Compiles a source.
fn compile_source(
    alloc: Global,
    source: &[u8],
    options: &TicOptions,
) -> Result<TicOutcome, EditError>
    ensures { IfOk result (λ outcome. IsCompiled source.now options.now.check
        (string_bytes options.now.dir) outcome) }
{
    let database = database_of(alloc, source)?;
    let first = first_line(source) as u64;
    Ok(outcome(alloc, &database, first, options)?)
}

/// What `tic` makes of a source: the files of its compiled entries, a report of its faults, and a
/// status. A missing newline at its end is added. The source, the terminals' descriptions, is that
/// of terminfo(5). A file of an entry is that of term(5), below `options.dir` as tic(1) has it.
///
/// # Errors
/// `BlockTooLong` or `TooManyBlocks`, of the first block at which one of them holds; then `Memory`.
pub fn tic(alloc: Global, source: &[u8], options: &TicOptions) -> Result<TicOutcome, ToolError>
    ensures { IsTicAnswer source.now options.now.check (string_bytes options.now.dir) result }
{
    match compile_source(alloc, source, options) {
        Ok(outcome) => Ok(outcome),
        // What is wrong with the source is reported before that memory ran out.
        Err(_) => Err(refusal(source)),
    }
}
