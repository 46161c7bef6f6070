//! The faults of a database, and what is shown for each.
ghost use Rattle.std.specs.Prelude.{◌≡◌, ◌≤◌, All, IfOk, IfSome, None, length, map};
ghost use Rattle.user_compiling.specs.Faults.{fault_seen};
ghost use Rattle.user_compiling.specs.Report.{IsExtendedPlaced};
ghost use Rattle.ti_source.specs.Cutting.{OneBlock};
ghost use Rattle.source_diagnostics.specs.SourceFaults.{faults_by};
ghost use Rattle.source_diagnostics.specs.declared.capabilities.Capabilities.TheVariants.{UserDefined};
ghost use Rattle.source_diagnostics.specs.inside.Kept.{sought_in};
ghost use Rattle.source_diagnostics.specs.inside.Marked.{AreMarked, AreOfBlock, source_marks};

use crate::capabilities::Capabilities;
use crate::kept::KeptMarks;
use crate::source_faults::{faults_by, kept_faults};
use source_types::Range;
use std::alloc::{AllocError, Global};
use ti_base::Database;
use user_compiling::ExtendedFault;
use user_kept::KeptDatabase;

/// The faults of a database, and what is shown for each.
#[derive(Drop)]
pub(crate) struct MarkedFaults {
    /// The faults, in the order of their report.
    pub(crate) faults: Vec<ExtendedFault>,
    /// What is shown for each, as if its line had the number 0.
    pub(crate) marks: Vec<Range>,
}

// How many kept blocks are looked through for one. If more than these had faults and have none any
// more, the blocks after them are read anew.
const LOOKED_THROUGH: usize = 64;

// How many faults at the front are of a block.
fn block_len(faults: &[ExtendedFault], block: usize) -> usize
    ensures block { AreOfBlock block result faults.now }
    ensures within { result ≤ length faults.now }
{
    for at in 0..faults.len() {
        let fault = &faults[at];
        if fault.block() != block {
            return at;
        }
    }
    faults.len()
}

// Takes what is kept of a block with these faults, if that is among the last, and all after it.
fn taken(kept: &mut Vec<KeptMarks>, text: &[u8], faults: &[ExtendedFault]) -> Option<KeptMarks>
    ensures { IfSome result (λ marks. marks ≡ record { text = text.now; faults = sought_in faults.now }) }
{
    let count = kept.len();
    for passed in 0..count.min(LOOKED_THROUGH) {
        let place = count - 1 - passed;
        let marks = &kept[place];
        if marks.is_of(text, faults) {
            let found = kept.swap_remove(place);
            kept.truncate(place);
            return Some(found);
        }
    }
    None
}

// What is kept of a block with these faults, or what is found anew.
fn marks_of(
    alloc: Global,
    kept: &mut Vec<KeptMarks>,
    text: &[u8],
    faults: &[ExtendedFault],
) -> Result<KeptMarks, AllocError>
    requires { OneBlock text.now }
    ensures { IfOk result (λ marks. marks ≡ record { text = text.now; faults = sought_in faults.now }) }
{
    match taken(kept, text, faults) {
        Some(marks) => Ok(marks),
        None => KeptMarks::of(alloc, text, faults),
    }
}

// What is shown for the faults of a database, and the same of each block that has faults.
fn marks_in(
    alloc: Global,
    database: &Database,
    faults: &[ExtendedFault],
    kept: &mut Vec<KeptMarks>,
) -> Result<(Vec<Range>, Vec<KeptMarks>), AllocError>
    requires { All (IsExtendedPlaced (length database.now)) (map fault_seen faults.now) }
    ensures { IfOk result (λ r. r.0.items ≡ source_marks database.now None (map fault_seen faults.now)) }
{
    database.each_is_one_block();
    kept.reverse();
    let mut marks = Vec::with_capacity(alloc, faults.len())?;
    let mut all = Vec::new(alloc);
    let mut rest = faults;
    while !rest.is_empty() {
        let block = rest[0].block();
        let count = block_len(rest, block);
        let (own, others) = rest.split_at(count);
        let found = marks_of(alloc, kept, database.text(block), own)?;
        marks.extend_from_slice(found.marks())?;
        all.push(found)?;
        rest = others;
    }
    Ok((marks, all))
}

// These faults of a database, and what is shown for each. Of a block with the same faults, for which
// this is kept in the order of the blocks, nothing is found anew. What is found is kept.
fn mark(
    alloc: Global,
    database: &Database,
    faults: Vec<ExtendedFault>,
    kept: &mut Vec<KeptMarks>,
) -> Result<MarkedFaults, AllocError>
    requires { All (IsExtendedPlaced (length database.now)) (map fault_seen faults.items) }
    ensures { IfOk result (λ marked. (capabilities : Capabilities) → map fault_seen faults.items ≡ faults_by capabilities database.now
        → AreMarked capabilities database.now (map fault_seen marked.faults.items) marked.marks.items) }
{
    let (marks, found) = marks_in(alloc, database, &faults, kept)?;
    *kept = found;
    Ok(MarkedFaults { faults, marks })
}

/// The faults of a database, by which capabilities its source may have, and what is shown for each.
/// What is shown is kept.
pub(crate) fn mark_faults(
    alloc: Global,
    capabilities: Capabilities,
    database: &Database,
    kept: &mut Vec<KeptMarks>,
) -> Result<MarkedFaults, AllocError>
    ensures { IfOk result (λ marked. AreMarked capabilities database.now (map fault_seen marked.faults.items) marked.marks.items) }
{
    let faults = faults_by(alloc, capabilities, database)?;
    mark(alloc, database, faults, kept)
}

/// The same with user-defined capabilities, of a database that keeps what was found out about these.
pub(crate) fn mark_kept_faults(
    alloc: Global,
    database: &mut KeptDatabase,
    kept: &mut Vec<KeptMarks>,
) -> Result<MarkedFaults, AllocError>
    ensures marked { IfOk result (λ marked. AreMarked UserDefined database.old (map fault_seen marked.faults.items) marked.marks.items) }
    ensures same { database.new ≡ database.old }
{
    let faults = kept_faults(alloc, database)?;
    mark(alloc, database.database(), faults, kept)
}
