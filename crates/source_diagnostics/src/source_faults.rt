//! The faults of a source, by which capabilities it may have.
ghost use Rattle.std.specs.Prelude.{◌≡◌, All, IfOk, length, map};
ghost use Rattle.base_meaning.specs.Faults.{fault_seen as profile_fault_seen, faults};
ghost use Rattle.base_meaning.specs.Owner.{readings};
ghost use Rattle.base_meaning.specs.Usable.{IsPlaced};
ghost use Rattle.user_compiling.specs.Faults.{fault_seen, of_profile};
ghost use Rattle.user_compiling.specs.Report.{IsExtendedPlaced};
ghost use Rattle.source_diagnostics.specs.SourceFaults as spec;
ghost use Rattle.source_diagnostics.specs.SourceFaults.{user_faults};

use crate::capabilities::Capabilities;
use std::alloc::{AllocError, Global};
use ti_base::{Database, Fault};
use user_compiling::ExtendedFault;
use user_compiling::leftmost::{compile, faults};
use user_kept::KeptDatabase;
use user_values::ValuesError;

// Faults of the profile, among which there may be others.
fn extended(alloc: Global, profile: Vec<Fault>) -> Result<Vec<ExtendedFault>, AllocError>
    ensures { IfOk result (λ all. map fault_seen all.items ≡ map of_profile (map profile_fault_seen profile.items)) }
{
    let mut all = Vec::with_capacity(alloc, profile.len())?;
    for fault in profile {
        all.push(ExtendedFault::Profile(fault))?;
    }
    Ok(all)
}

// The faults of the profile.
fn profile_faults(alloc: Global, database: &Database) -> Result<Vec<ExtendedFault>, AllocError>
    ensures all { IfOk result (λ all. map fault_seen all.items ≡ map of_profile (faults (readings database.now))) }
    ensures placed { IfOk result (λ all. All (IsExtendedPlaced (length database.now)) (map fault_seen all.items)) }
{
    let profile = database.faults()?;
    extended(alloc, profile)
}

// The faults of a source whose user-defined capabilities are kept, or those of the profile if it
// has too many user-defined names.
fn user_faults(alloc: Global, database: &Database) -> Result<Vec<ExtendedFault>, AllocError>
    ensures all { IfOk result (λ all. map fault_seen all.items ≡ user_faults database.now) }
    ensures placed { IfOk result (λ all. All (IsExtendedPlaced (length database.now)) (map fault_seen all.items)) }
{
    user_compiling::laws::rows_are_determined();
    match compile(alloc, database) {
        Ok(compiled) => faults(alloc, database, &compiled),
        Err(ValuesError::TooManyNames(_)) => profile_faults(alloc, database),
        Err(ValuesError::Memory) => Err(AllocError),
    }
}

/// The same of a database that keeps what was found out, which finds out what is not kept.
///
/// # Errors
/// Out of memory.
pub(crate) fn kept_faults(
    alloc: Global,
    database: &mut KeptDatabase,
) -> Result<Vec<ExtendedFault>, AllocError>
    ensures all { IfOk result (λ all. map fault_seen all.items ≡ user_faults database.old) }
    ensures placed { IfOk result (λ all. All (IsExtendedPlaced (length database.old)) (map fault_seen all.items)) }
    ensures same { database.new ≡ database.old }
{
    user_compiling::laws::rows_are_determined();
    match database.user_faults(alloc) {
        Ok(all) => Ok(all),
        Err(ValuesError::TooManyNames(_)) => profile_faults(alloc, database.database()),
        Err(ValuesError::Memory) => Err(AllocError),
    }
}

/// The faults of a source, in the order of their report, by which capabilities it may have.
///
/// # Errors
/// Out of memory.
pub(crate) fn faults_by(
    alloc: Global,
    capabilities: Capabilities,
    database: &Database,
) -> Result<Vec<ExtendedFault>, AllocError>
    ensures all { IfOk result (λ all. map fault_seen all.items ≡ spec.faults_by capabilities database.now) }
    ensures placed { IfOk result (λ all. All (IsExtendedPlaced (length database.now)) (map fault_seen all.items)) }
{
    match capabilities {
        Capabilities::Profile => profile_faults(alloc, database),
        Capabilities::UserDefined => user_faults(alloc, database),
    }
}
