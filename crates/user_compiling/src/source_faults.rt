//! The faults of a source whose user-defined capabilities are kept.
ghost use Rattle.std.specs.Prelude.{◌≡◌, ◌<◌, ◌≤◌, ◌++◌, ℕ, List, All, IfOk, OnOk, length, map, slice_get, Some, drop};
ghost use Rattle.base_meaning.specs.Readings.{reading_by, readings_by};
ghost use Rattle.base_meaning.specs.Compiled.{EntryState};
ghost use Rattle.base_meaning.specs.Usable.{IsPlaced};
ghost use Rattle.base_meaning.specs.Faults as spec;
ghost use Rattle.base_meaning.specs.Faults.{fault_seen as profile_fault_seen};
ghost use Rattle.user_compiling.specs.Entries.{state_seen};
ghost use Rattle.user_compiling.specs.Faults.{extended_faults_by, fault_seen};
ghost use Rattle.user_compiling.specs.Findings.{AreFindingsBy};
ghost use Rattle.user_compiling.specs.Report.{IsExtendedPlaced};
ghost use Rattle.user_compiling.specs.inside.Pairs.{count_at};

use crate::block_faults::add_block_faults;
use crate::compiled::Compiled;
use crate::fault::ExtendedFault;
use crate::finding::Finding;
use base_meaning::Fault;
use std::alloc::{AllocError, Global};
use ti_base::RuledDatabase;

// How many faults at the front are of the block at a position.
fn count_at(faults: &[Fault], at: usize) -> usize
    ensures within { result ≤ length faults.now }
    ensures count { result ≡ count_at at (map profile_fault_seen faults.now) }
{
    let mut count = 0;
    for fault in faults {
        if fault.block != at {
            return count;
        }
        count += 1;
    }
    count
}

// The faults of a source, given those of the profile and what was found out about each block.
fn extend_all(
    alloc: Global,
    database: &RuledDatabase,
    profile: &[Fault],
    findings: &[Finding],
) -> Result<Vec<ExtendedFault>, AllocError>
    requires as_many { length findings.now ≡ length database.now.texts }
    requires profile { map profile_fault_seen profile.now ≡ spec.faults (readings_by database.now.rule database.now.texts) }
    requires placed { All (IsPlaced (length database.now.texts)) (map profile_fault_seen profile.now) }
    ensures all { IfOk result (λ all. (states : List EntryState) → AreFindingsBy database.now.texts states findings.now
        → map fault_seen all.items ≡ extended_faults_by database.now.rule database.now.texts states) }
    ensures placed { IfOk result (λ all. All (IsExtendedPlaced (length database.now.texts)) (map fault_seen all.items)) }
{
    let mut all = Vec::new(alloc);
    let mut rest = profile;
    for (at, finding) in findings.iter().enumerate() {
        let (block, others) = rest.split_at(count_at(rest, at));
        add_block_faults(database, at, block, finding, &mut all)?;
        rest = others;
    }
    Ok(all)
}

/// The faults of a source, about whose blocks this was found out (`Finding::of`): those that
/// `faults` gives.
///
/// # Errors
/// Out of memory.
pub fn found_faults(
    alloc: Global,
    database: &RuledDatabase,
    findings: &[Finding],
) -> Result<Vec<ExtendedFault>, AllocError>
    requires as_many { length findings.now ≡ length database.now.texts }
    ensures all { IfOk result (λ all. (states : List EntryState) → AreFindingsBy database.now.texts states findings.now
        → map fault_seen all.items ≡ extended_faults_by database.now.rule database.now.texts states) }
    ensures placed { IfOk result (λ all. All (IsExtendedPlaced (length database.now.texts)) (map fault_seen all.items)) }
{
    let profile = database.faults()?;
    let all = extend_all(alloc, database, &profile, findings)?;
    Ok(all)
}

/// What is found out about each block of a source, of whose blocks this becomes.
///
/// # Errors
/// Out of memory.
pub fn findings_of(
    alloc: Global,
    database: &RuledDatabase,
    compiled: &[Compiled],
) -> Result<Vec<Finding>, AllocError>
    requires as_many { length compiled.now ≡ length database.now.texts }
    ensures as_many { IfOk result (λ findings. length findings.items ≡ length database.now.texts) }
    ensures findings { IfOk result (λ findings. AreFindingsBy database.now.texts (map state_seen compiled.now) findings.items) }
{
    let mut findings = Vec::with_capacity(alloc, compiled.len())?;
    for (at, state) in compiled.iter().enumerate() {
        findings.push(Finding::of(alloc, database, at, state)?)?;
    }
    Ok(findings)
}

/// The faults of a source, of whose blocks this becomes: those of the profile, without the warnings
/// that a name is unknown which an item defines. In the place of such a warning comes W5 or W3, if
/// the item has it. The fault of an entry is that of the entry with its extension.
///
/// # Errors
/// Out of memory.
pub fn faults(
    alloc: Global,
    database: &RuledDatabase,
    compiled: &[Compiled],
) -> Result<Vec<ExtendedFault>, AllocError>
    requires as_many { length compiled.now ≡ length database.now.texts }
    ensures all { IfOk result (λ all. map fault_seen all.items ≡ extended_faults_by database.now.rule database.now.texts (map state_seen compiled.now)) }
    ensures placed { IfOk result (λ all. All (IsExtendedPlaced (length database.now.texts)) (map fault_seen all.items)) }
{
    let findings = findings_of(alloc, database, compiled)?;
    let all = found_faults(alloc, database, &findings)?;
    Ok(all)
}
