//! The faults of a block but those of names that earlier blocks own: of its header, its items in
//! their order, and its entry.
ghost use Rattle.std.specs.Prelude.{ℕ, ◌≡◌, ◌≤◌, [], ◌∷◌, drop, filter, map, length, slice_get, Some, is_some, false, option_map, IfOk, OnOk};
ghost use Rattle.std.specs.Bool.{MatchBool};
ghost use Rattle.std.specs.Rc.{rc_slice_items};
ghost use Rattle.ti_source.specs.Reading.{fault_of, reading_of, said_of};
ghost use Rattle.base_meaning.specs.Faults.{entry_faults, fault_of_item, fault_of_use, faults_before, faults_from, is_kept, item_faults, local_fault, local_faults, use_fault};
ghost use Rattle.base_meaning.specs.Reaching.{used_name};
ghost use Rattle.base_meaning.specs.UseLaws.{HasUseAtFault};
ghost use Rattle.base_slots.specs.Settled.{state_seen};
ghost use Rattle.base_plan.specs.inside.Settling.{AreUsesSound, CanSettle, IsItemAt, IsUseAt, is_at_fault, blocks_known};
ghost use Rattle.base_plan.specs.inside.Faults.{AddsFaults};

use crate::owners::{Known, used_table};
use base_slots::{KeptFault, State, copy_detail};
use std::alloc::AllocError;
use std::rc::RcSlice;
use ti_source::{Code, Item, Local, Parsed, What};

// Adds a fault that reading gave.
fn add_local(local: &Local, faults: &mut Vec<KeptFault>) -> Result<(), AllocError>
    ghost at: { ℕ }
    ensures { OnOk result (AddsFaults at faults.old.items faults.new.items (local_fault at (fault_of local.now) ∷ [])) }
{
    faults.push(KeptFault {
        line: local.line,
        code: local.code,
        detail: copy_detail(&local.detail)?,
    })?;
    Ok(())
}

/// Adds the faults that reading gave: those of the header, or the others.
pub(crate) fn add_locals(
    locals: &[Local],
    of_header: bool,
    faults: &mut Vec<KeptFault>,
) -> Result<(), AllocError>
    ghost at: { ℕ }
    ensures { OnOk result (AddsFaults at faults.old.items faults.new.items
        (local_faults of_header at (map fault_of locals.now))) }
{
    for local in locals {
        if local.code.is_of_header() == of_header {
            add_local(local, faults)?;
        }
    }
    Ok(())
}

// Adds the faults that reading gave for items before that ordinal, beginning at a place of the
// list, and returns where the others begin.
fn add_before(
    locals: &[Local],
    next: usize,
    ordinal: usize,
    faults: &mut Vec<KeptFault>,
) -> Result<usize, AllocError>
    ghost at: { ℕ }
    requires { next ≤ length locals.now }
    ensures within { IfOk result (λ rest. rest ≤ length locals.now) }
    ensures added { OnOk result (AddsFaults at faults.old.items faults.new.items
        (map (local_fault at) (faults_before ordinal (filter (is_kept false) (map fault_of (drop next locals.now)))))) }
    ensures rest { IfOk result (λ rest. filter (is_kept false) (map fault_of (drop rest locals.now))
        ≡ faults_from ordinal (filter (is_kept false) (map fault_of (drop next locals.now)))) }
{
    for place in next..locals.len() {
        let local = &locals[place];
        if !local.code.is_of_header() {
            if local.ordinal >= ordinal {
                return Ok(place);
            }
            add_local(local, faults)?;
        }
    }
    Ok(locals.len())
}

// Adds what is wrong with a use of the block at a node, an item on that line, if something is, and
// says whether something is.
fn add_use_fault(
    known: &Known,
    node: usize,
    index: usize,
    line: usize,
    name: &RcSlice<u8>,
    faults: &mut Vec<KeptFault>,
) -> Result<bool, AllocError>
    ghost at: { ℕ }
    requires ready { CanSettle known.now node at }
    requires used { IsUseAt (blocks_known known.now) at index (rc_slice_items name.now) }
    ensures added { OnOk result (AddsFaults at faults.old.items faults.new.items
        (fault_of_use at line (rc_slice_items name.now) (use_fault (blocks_known known.now) at (rc_slice_items name.now)))) }
    ensures found { IfOk result (λ is_wrong. is_wrong ≡ is_some (use_fault (blocks_known known.now) at (rc_slice_items name.now))) }
{
    let Err(code) = used_table(known, node, index, name.as_slice()) else {
        return Ok(false);
    };
    faults.push(KeptFault {
        line,
        code,
        detail: Some(name.clone()?),
    })?;
    Ok(true)
}

// Adds what is wrong with an item of the block at a node, if it is a use and something is, and
// says whether something is.
fn add_item_fault(
    known: &Known,
    node: usize,
    index: usize,
    item: &Item,
    faults: &mut Vec<KeptFault>,
) -> Result<bool, AllocError>
    ghost at: { ℕ }
    requires ready { CanSettle known.now node at }
    requires item { IsItemAt (blocks_known known.now) at index (said_of item.now.what) }
    ensures added { OnOk result (AddsFaults at faults.old.items faults.new.items
        (fault_of_item (blocks_known known.now) at item.now.line (used_name (said_of item.now.what)))) }
    ensures found { IfOk result (λ is_wrong. is_wrong ≡ is_at_fault (blocks_known known.now) at (used_name (said_of item.now.what))) }
{
    match &item.what {
        What::Import(name) => add_use_fault(known, node, index, item.line, name, faults),
        _ => Ok(false),
    }
}

/// Adds the faults of the items of the block at a node, in their order, and says whether one of its
/// uses is at fault.
pub(crate) fn add_item_faults(
    known: &Known,
    node: usize,
    block: &Parsed,
    faults: &mut Vec<KeptFault>,
) -> Result<bool, AllocError>
    ghost at: { ℕ }
    requires ready { CanSettle known.now node at }
    requires block { slice_get (blocks_known known.now) at ≡ Some (reading_of block.now) }
    ensures added { OnOk result (AddsFaults at faults.old.items faults.new.items
        (item_faults (blocks_known known.now) at (filter (is_kept false) (reading_of block.now).faults) (reading_of block.now).items)) }
    ensures found { IfOk result (λ is_wrong. MatchBool is_wrong
        (HasUseAtFault (blocks_known known.now) at (reading_of block.now)) (AreUsesSound (blocks_known known.now) at)) }
{
    let mut next = 0;
    let mut is_wrong = false;
    for (index, item) in block.items.iter().enumerate() {
        next = add_before(&block.faults, next, item.ordinal, faults)?;
        if add_item_fault(known, node, index, item, faults)? {
            is_wrong = true;
        }
    }
    add_locals(&block.faults[next..], false, faults)?;
    Ok(is_wrong)
}

// The first of the names, its bytes shared.
fn first_name(names: &[RcSlice<u8>]) -> Result<Option<RcSlice<u8>>, AllocError>
    ensures { IfOk result (λ name. option_map rc_slice_items name ≡ slice_get (map rc_slice_items names.now) 0) }
{
    Ok(match names.first() {
        Some(name) => Some(name.clone()?),
        None => None,
    })
}

/// Adds the fault of a block whose entry is over the limit.
pub(crate) fn add_entry_fault(
    names: &[RcSlice<u8>],
    state: &State,
    faults: &mut Vec<KeptFault>,
) -> Result<(), AllocError>
    ghost at: { ℕ }
    ensures { OnOk result (AddsFaults at faults.old.items faults.new.items
        (entry_faults at (map rc_slice_items names.now) (state_seen state.now))) }
{
    if let State::TooLarge(_) = state {
        faults.push(KeptFault {
            line: 1,
            code: Code::TooLarge,
            detail: first_name(names)?,
        })?;
    }
    Ok(())
}
