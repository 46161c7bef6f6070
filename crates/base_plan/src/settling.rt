//! What is found out about one block of a plan: what becomes of it, and its faults.
ghost use Rattle.std.specs.Prelude.{ℕ, ◌≡◌, ◌+◌, ◌≤◌, map, length, slice_get, Some, IfOk, OnOk};
ghost use Rattle.std.specs.Bool.{MatchBool};
ghost use Rattle.std.specs.List.{list_any};
ghost use Rattle.ti_source.specs.Code.{is_error};
ghost use Rattle.ti_source.specs.Reading.{Reading, fault_of, reading_of};
ghost use Rattle.ti_layout.specs.Values.{contents};
ghost use Rattle.base_meaning.specs.Compiled.{state_of};
ghost use Rattle.base_meaning.specs.Dependents.{work_of};
ghost use Rattle.base_meaning.specs.UseLaws.{HasUseAtFault};
ghost use Rattle.base_meaning.specs.ValueTables.{HasTable};
ghost use Rattle.base_slots.specs.Settled.{IsSettled, state_seen, table_of};
ghost use Rattle.base_plan.specs.inside.Settling.{AreUsesSound, CanSettle, blocks_known};

use crate::faults::{add_entry_fault, add_item_faults, add_locals};
use crate::owners::Known;
use crate::tables::compile;
use base_slots::{Settled, Slot, State};
use std::alloc::{AllocError, Global};
use ti_source::Local;

// Whether one of the faults is an error.
fn has_error(faults: &[Local]) -> bool
    ensures { result ≡ list_any (λ f. is_error f.code) (map fault_of faults.now) }
{
    for fault in faults {
        if fault.code.is_error() {
            return true;
        }
    }
    false
}

// The slot of the block at a node, in which what was found out before is still there.
fn slot_of<'a>(known: &Known<'a>, node: usize) -> &'a Slot
    ghost at: { ℕ }
    requires { CanSettle known.now node at }
    ensures { slice_get (blocks_known known.now) at ≡ Some (reading_of result.now.block) }
{
    known.slots.slot(known.dependents.ids[node])
}

// What becomes of the block at a node, of which one use at least is at fault, or none.
fn find_state<'a>(
    alloc: Global,
    known: &Known<'a>,
    node: usize,
    slot: &'a Slot,
    is_wrong: bool,
    left: &mut u64,
) -> Result<State, AllocError>
    ghost at: { ℕ }
    requires ready { CanSettle known.now node at }
    requires block { slice_get (blocks_known known.now) at ≡ Some (reading_of slot.now.block) }
    requires uses { MatchBool is_wrong (HasUseAtFault (blocks_known known.now) at (reading_of slot.now.block))
        (AreUsesSound (blocks_known known.now) at) }
    requires room { length slot.now.block.items.items ≤ left.old }
    ensures state { IfOk result (λ state. state_seen state ≡ state_of (blocks_known known.now) (reading_of slot.now.block)) }
    ensures table { IfOk result (λ state. HasTable contents (blocks_known known.now) (reading_of slot.now.block) (table_of state)) }
    ensures work { OnOk result (left.new + work_of (blocks_known known.now) (Some (reading_of slot.now.block)) ≡ left.old) }
{
    if is_wrong || has_error(&slot.block.faults) {
        return Ok(State::Unresolved);
    }
    compile(alloc, known, node, slot, left)
}

/// What is found out about the block at a node: what becomes of it, and its faults but those of
/// names that earlier blocks own. Each of its items takes one of the steps left, if it resolves.
pub(crate) fn settle(
    alloc: Global,
    known: &Known,
    node: usize,
    left: &mut u64,
) -> Result<Settled, AllocError>
    ghost at: { ℕ }
    requires ready { CanSettle known.now node at }
    requires room { (block : Reading) → slice_get (blocks_known known.now) at ≡ Some block → length block.items ≤ left.old }
    ensures settled { IfOk result (λ settled. (block : Reading) → slice_get (blocks_known known.now) at ≡ Some block
        → IsSettled (blocks_known known.now) at block settled) }
    ensures work { OnOk result (left.new + work_of (blocks_known known.now) (slice_get (blocks_known known.now) at) ≡ left.old) }
{
    let slot = slot_of(known, node);
    let mut faults = Vec::new(alloc);
    add_locals(&slot.block.faults, true, &mut faults)?;
    let is_wrong = add_item_faults(known, node, &slot.block, &mut faults)?;
    let state = find_state(alloc, known, node, slot, is_wrong, left)?;
    add_entry_fault(&slot.block.names, &state, &mut faults)?;
    Ok(Settled { state, faults })
}
