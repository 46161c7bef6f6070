//! The faults of a source: those kept with each block, and between them those of its names.
ghost use Rattle.std.specs.Prelude.{◌≡◌, ◌<◌, ◌++◌, ◌∷◌, [], filter, map, length, slice_get, Some, true, IfOk, OnOk};
ghost use Rattle.std.specs.List.{list_any};
ghost use Rattle.std.specs.Rc.{rc_slice_items};
ghost use Rattle.ti_source.specs.Reading.{Reading, fault_of};
ghost use Rattle.base_meaning.specs.Faults.{block_faults, fault_seen, faults, is_kept, is_owned_before, name_fault, name_faults};
ghost use Rattle.base_slots.specs.Slots.{blocks_of};
ghost use Rattle.base_slots.specs.Settled.{fault_at};
ghost use Rattle.ti_base.specs.inside.Database.{AreKept};

use crate::names::distinct_names;
use crate::owners::{is_owned_before, slot_of};
use base_meaning::Fault;
use base_slots::{KeptFault, Slots, copy_detail};
use std::alloc::{AllocError, Global};
use std::rc::RcSlice;
use ti_source::{Code, Local};

// How many of the faults that reading gave are of the header.
fn count_of_header(locals: &[Local]) -> usize
    ensures { result ≡ length (filter (is_kept true) (map fault_of locals.now)) }
{
    let mut count = 0;
    for local in locals {
        if local.code.is_of_header() {
            count += 1;
        }
    }
    count
}

// Adds faults that are kept with the block at a position.
fn add_kept(at: usize, kept: &[KeptFault], faults: &mut Vec<Fault>) -> Result<(), AllocError>
    ensures { OnOk result (map fault_seen faults.new.items ≡ map fault_seen faults.old.items ++ map (fault_at at) kept.now) }
{
    for fault in kept {
        faults.push(Fault {
            block: at,
            line: fault.line,
            code: fault.code,
            detail: copy_detail(&fault.detail)?,
        })?;
    }
    Ok(())
}

// Whether an earlier block owns one of the names.
fn has_duplicate(slots: &Slots, at: usize, names: &[RcSlice<u8>]) -> bool
    ensures { result ≡ list_any (is_owned_before (blocks_of slots.now) at) (map rc_slice_items names.now) }
{
    for name in names {
        if is_owned_before(slots, at, name.as_slice()) {
            return true;
        }
    }
    false
}

// Adds the fault of a name, if an earlier block owns it.
fn add_name_fault(
    slots: &Slots,
    at: usize,
    name: &RcSlice<u8>,
    faults: &mut Vec<Fault>,
) -> Result<(), AllocError>
    ensures { OnOk result (map fault_seen faults.new.items ≡ map fault_seen faults.old.items
        ++ map (name_fault at) (filter (is_owned_before (blocks_of slots.now) at) (rc_slice_items name.now ∷ []))) }
{
    if is_owned_before(slots, at, name.as_slice()) {
        faults.push(Fault {
            block: at,
            line: 1,
            code: Code::DuplicateName,
            detail: Some(name.clone()?),
        })?;
    }
    Ok(())
}

// Adds a fault for each lookup name of a block that an earlier block owns.
fn add_name_faults(
    alloc: Global,
    slots: &Slots,
    at: usize,
    names: &[RcSlice<u8>],
    faults: &mut Vec<Fault>,
) -> Result<(), AllocError>
    ensures { OnOk result (map fault_seen faults.new.items ≡ map fault_seen faults.old.items
        ++ name_faults (blocks_of slots.now) at (map rc_slice_items names.now)) }
{
    // Few blocks have such a name; for the others no set of names is made.
    if !has_duplicate(slots, at, names) {
        return Ok(());
    }
    let once = distinct_names(alloc, names)?;
    for name in &once {
        add_name_fault(slots, at, name, faults)?;
    }
    Ok(())
}

// Adds the faults of the block at a position.
fn add_block_faults(
    alloc: Global,
    slots: &Slots,
    at: usize,
    faults: &mut Vec<Fault>,
) -> Result<(), AllocError>
    requires kept { AreKept slots.now }
    requires within { at < length slots.now.placed }
    ensures { OnOk result ((b : Reading) → slice_get (blocks_of slots.now) at ≡ Some b
        → map fault_seen faults.new.items ≡ map fault_seen faults.old.items ++ block_faults (blocks_of slots.now) at b) }
{
    let slot = slot_of(slots, at);
    let count = count_of_header(&slot.block.faults);
    let (of_header, others) = slot.settled.faults.split_at(count);
    add_kept(at, of_header, faults)?;
    add_name_faults(alloc, slots, at, &slot.block.names, faults)?;
    add_kept(at, others, faults)?;
    Ok(())
}

/// The faults of all blocks, in list order.
pub(crate) fn source_faults(alloc: Global, slots: &Slots) -> Result<Vec<Fault>, AllocError>
    requires { AreKept slots.now }
    ensures { IfOk result (λ all. map fault_seen all.items ≡ faults (blocks_of slots.now)) }
{
    let mut faults = Vec::new(alloc);
    for at in 0..slots.len() {
        add_block_faults(alloc, slots, at, &mut faults)?;
    }
    Ok(faults)
}
