//! The same of a source that a `Database` holds, which is read by `Rule::Leftmost`.
ghost use Rattle.std.specs.Prelude.{◌≡◌, ◌<◌, ◌≤◌, ℕ, List, All, Some, IfOk, IsErrOf, OnOk, length, map, slice_get};
ghost use Rattle.std.specs.List.{flat_map};
ghost use Rattle.ti_source.specs.Cutting.{OneBlock};
ghost use Rattle.base_meaning.specs.Compiled.{EntryState};
ghost use Rattle.user_values.specs.Limit.{name_count, name_limit, IsOverLimitAt};
ghost use Rattle.user_values.specs.Tables.{said_at, IsUserTableOf};
ghost use Rattle.user_compiling.specs.Entries.{state_seen, AreStates, IsStateOf};
ghost use Rattle.user_compiling.specs.Faults.{extended_faults, fault_seen};
ghost use Rattle.user_compiling.specs.Findings.{AreFindingsBy, IsFindingBy};
ghost use Rattle.user_compiling.specs.Report.{extended_line, IsExtendedPlaced};

use crate::compiled::Compiled;
use crate::fault::ExtendedFault;
use crate::finding::Finding;
use crate::{compiling, report, source_faults};
use std::alloc::{AllocError, Global};
use ti_base::Database;
use user_values::{UserTable, ValuesError};

/// What becomes of each block, as [`compile`](crate::compile) of the source.
///
/// # Errors
/// `TooManyNames` or `Memory`, as of that.
pub fn compile(alloc: Global, database: &Database) -> Result<Vec<Compiled>, ValuesError>
    ensures states { IfOk result (λ all. AreStates database.now (map state_seen all.items)) }
    ensures few { OnOk result (name_count database.now (length database.now) ≤ name_limit) }
    ensures too_many { (at : ℕ) → IsErrOf result (ValuesError.TooManyNames at) → IsOverLimitAt database.now at }
{
    compiling::compile(alloc, database.as_ruled())
}

/// What becomes of the block at a position, which says this of user-defined names.
///
/// # Errors
/// Out of memory.
pub fn compile_with(
    alloc: Global,
    database: &Database,
    at: usize,
    user: &UserTable,
) -> Result<Compiled, AllocError>
    requires within { at < length database.now }
    requires one { All OneBlock database.now }
    requires user { (text : List ℕ) → slice_get database.now at ≡ Some text → IsUserTableOf database.now text (said_at user.now) }
    ensures { IfOk result (λ state. (text : List ℕ) → slice_get database.now at ≡ Some text → IsStateOf database.now text (state_seen state)) }
{
    compiling::compile_with(alloc, database.as_ruled(), at, user)
}

/// What is found out about the block at a position, of which this becomes.
///
/// # Errors
/// Out of memory.
pub fn finding_of(
    alloc: Global,
    database: &Database,
    at: usize,
    state: &Compiled,
) -> Result<Finding, AllocError>
    requires { at < length database.now }
    ensures { IfOk result (λ finding. (text : List ℕ) → slice_get database.now at ≡ Some text → IsFindingBy text (state_seen state.now) finding) }
{
    Finding::of(alloc, database.as_ruled(), at, state)
}

/// What is found out about each block, of which these become.
///
/// # Errors
/// Out of memory.
pub fn findings_of(
    alloc: Global,
    database: &Database,
    compiled: &[Compiled],
) -> Result<Vec<Finding>, AllocError>
    requires as_many { length compiled.now ≡ length database.now }
    ensures as_many { IfOk result (λ findings. length findings.items ≡ length database.now) }
    ensures findings { IfOk result (λ findings. AreFindingsBy database.now (map state_seen compiled.now) findings.items) }
{
    source_faults::findings_of(alloc, database.as_ruled(), compiled)
}

/// The faults, by what was found out about each block.
///
/// # Errors
/// Out of memory.
pub fn found_faults(
    alloc: Global,
    database: &Database,
    findings: &[Finding],
) -> Result<Vec<ExtendedFault>, AllocError>
    requires as_many { length findings.now ≡ length database.now }
    ensures all { IfOk result (λ all. (states : List EntryState) → AreFindingsBy database.now states findings.now
        → map fault_seen all.items ≡ extended_faults database.now states) }
    ensures placed { IfOk result (λ all. All (IsExtendedPlaced (length database.now)) (map fault_seen all.items)) }
{
    source_faults::found_faults(alloc, database.as_ruled(), findings)
}

/// The faults, by what becomes of each block.
///
/// # Errors
/// Out of memory.
pub fn faults(
    alloc: Global,
    database: &Database,
    compiled: &[Compiled],
) -> Result<Vec<ExtendedFault>, AllocError>
    requires as_many { length compiled.now ≡ length database.now }
    ensures all { IfOk result (λ all. map fault_seen all.items ≡ extended_faults database.now (map state_seen compiled.now)) }
    ensures placed { IfOk result (λ all. All (IsExtendedPlaced (length database.now)) (map fault_seen all.items)) }
{
    source_faults::faults(alloc, database.as_ruled(), compiled)
}

/// The report of these faults, as [`report_of`](crate::report_of) of the source.
///
/// # Errors
/// Out of memory.
pub fn report_of(
    alloc: Global,
    database: &Database,
    faults: &[ExtendedFault],
    first_line: u64,
) -> Result<Vec<u8>, AllocError>
    requires placed { All (IsExtendedPlaced (length database.now)) (map fault_seen faults.now) }
    requires first { first_line ≤ 9223372036854775808 }
    ensures { IfOk result (λ out. out.items ≡ flat_map (extended_line database.now first_line) (map fault_seen faults.now)) }
{
    report::report_of(alloc, database.as_ruled(), faults, first_line)
}
