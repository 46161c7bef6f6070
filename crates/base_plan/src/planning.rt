//! The plan of an edit, made: the blocks found settled along the closing order of their uses.
ghost use Rattle.std.specs.Prelude.{ℕ, ◌≡◌, ◌+◌, ◌≤◌, length, map, Some, sum_by, All, IfOk, OnOk};
ghost use Rattle.base_components.specs.Components.{AreComponents, IsClosingOrder};
ghost use Rattle.base_meaning.specs.Dependents.{work};
ghost use Rattle.std.specs.Rc.{rc_slice_items};
ghost use Rattle.base_meaning.specs.Usable.{IsUsable};
ghost use Rattle.base_slots.specs.Slots.{blocks_of, StandsAt};
ghost use Rattle.base_plan.specs.Plans.{IsPlan, IsPlanOfAll, IsReady};
ghost use Rattle.base_plan.specs.inside.Settling.{AreAllSettled, AreFoundIn, IsPlanOf, node_position};

use crate::owners::Known;
use crate::plans::Plan;
use crate::settling::settle;
use base_components::Components;
use base_dependents::{Dependents, find_all, find_dependents};
use base_slots::{BlockEntry, Settled, Slots, State};
use std::alloc::{AllocError, Global};
use std::rc::RcSlice;

// What a list of so many blocks has for each before it is settled. None of it is read.
fn unsettled_nodes(alloc: Global, count: usize) -> Result<Vec<Settled>, AllocError>
    ensures { IfOk result (λ all. length all.items ≡ count) }
{
    let mut all = Vec::with_capacity(alloc, count)?;
    for _node in 0..count {
        let unsettled = Settled {
            state: State::Unresolved,
            faults: Vec::new(alloc),
        };
        all.push(unsettled)?;
    }
    Ok(all)
}

// What is found out about each of the blocks, each after those of other components that it uses.
// Each step is taken off those that are left.
fn settle_all(
    alloc: Global,
    slots: &Slots,
    dependents: &Dependents,
    components: &Components,
    entry_out: Option<&BlockEntry>,
    left: &mut u64,
) -> Result<Vec<Settled>, AllocError>
    requires found { AreFoundIn slots.now dependents.now }
    requires components { AreComponents dependents.now.uses components.now.component_of.items }
    requires order { IsClosingOrder dependents.now.uses components.now.component_of.items components.now.order.items }
    requires room { sum_by length dependents.now.uses ≤ left.old }
    ensures settled { IfOk result (λ all. AreAllSettled slots.now dependents.now all.items) }
    ensures work { OnOk result (left.new + work (blocks_of slots.now) (map (node_position dependents.now) components.now.order.items) ≡ left.old) }
{
    let mut settled = unsettled_nodes(alloc, dependents.ids.len())?;
    for node in &components.order {
        let known = Known {
            slots,
            dependents,
            component_of: &components.component_of,
            settled: &settled,
            entry_out,
        };
        let one = settle(alloc, &known, *node, left)?;
        settled[*node] = one;
    }
    Ok(settled)
}

// The plan that rebuilds these blocks, after an edit that takes out a block with that entry.
fn make_plan(
    alloc: Global,
    slots: &Slots,
    dependents: Dependents,
    entry_out: Option<&BlockEntry>,
) -> Result<Plan, AllocError>
    requires { AreFoundIn slots.now dependents }
    ensures { IfOk result (λ plan. IsPlanOf slots.now dependents plan) }
{
    let components = Components::find(alloc, &dependents.uses)?;
    // Each step has an edge of its own.
    let steps_max = dependents.uses.edge_count() as u64;
    let mut left = steps_max;
    let settled = settle_all(alloc, slots, &dependents, &components, entry_out, &mut left)?;
    let Dependents {
        ids,
        positions: mut rebuilt,
        uses: _,
    } = dependents;
    rebuilt.sort_unstable();
    Ok(Plan {
        ids,
        settled,
        rebuilt,
        work: steps_max - left,
    })
}

/// The plan of an edit of a list: of the block put in, which has the id `put`, and each block that
/// reaches a name of it or one of the names `out` of the block taken out, what is found out about
/// it in the new list. The list is the new one; what its slots hold of all other blocks is right.
/// `entry_out` is the entry of the block taken out, if it has one: of a block with the same names
/// that has no entry of its own, the entry is a copy of it, patched. The time is linear, up to a
/// logarithm, in what the blocks found say, in how many use their names and in the values that they
/// have.
///
/// # Errors
/// Out of memory.
pub fn plan(
    alloc: Global,
    slots: &Slots,
    put: Option<u32>,
    out: &[RcSlice<u8>],
    entry_out: Option<&BlockEntry>,
) -> Result<Plan, AllocError>
    requires usable { All IsUsable (blocks_of slots.now) }
    requires put { (id : ℕ) → put ≡ Some id → (at : ℕ) × StandsAt slots.now at id }
    requires ready { IsReady slots.now put (map rc_slice_items out.now) }
    ensures { IfOk result (λ plan. IsPlan slots.now put (map rc_slice_items out.now) plan) }
{
    let dependents = find_dependents(alloc, slots, put, out)?;
    make_plan(alloc, slots, dependents, entry_out)
}

/// The plan of a list that is made in one go: what is found out about each of its blocks. Nothing
/// that the slots hold of a block is asked to be right; an entry that they hold is patched, as in
/// the plan of an edit. The time is linear, up to a logarithm, in what the blocks say and in the
/// values that they have.
///
/// # Errors
/// Out of memory.
pub fn plan_all(alloc: Global, slots: &Slots) -> Result<Plan, AllocError>
    requires { All IsUsable (blocks_of slots.now) }
    ensures { IfOk result (λ plan. IsPlanOfAll slots.now plan) }
{
    let all = find_all(alloc, slots)?;
    make_plan(alloc, slots, all, None)
}
