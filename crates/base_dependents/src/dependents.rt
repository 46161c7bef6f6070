//! The blocks that depend on an edit.
ghost use Rattle.std.specs.Prelude.{◌≡◌, ℕ, Some, map, slice_get, IfOk};
ghost use Rattle.std.specs.Rc.{rc_slice_items};
ghost use Rattle.ti_text.specs.Lists.{Has, AreDistinct};
ghost use Rattle.base_components.specs.Graph.{IsGraph};
ghost use Rattle.base_slots.specs.Slots.{ids_of, StandsAt};
ghost use Rattle.base_dependents.specs.Dependents.{AreAllIds, AreDependentIds, IsGraphOfUses};
ghost use Rattle.base_dependents.specs.inside.Uses.{ArePlaced};

use crate::listing::{listed_ids, positions};
use crate::search::search;
use crate::uses::graph_of_uses;
use base_components::Graph;
use base_slots::Slots;
use indexmap::IndexSet;
use std::alloc::{AllocError, Global};
use std::rc::RcSlice;

/// The blocks that depend on an edit, each once, and which of them use each other.
#[derive(Drop)]
pub struct Dependents {
    /// The ids of the blocks.
    pub ids: Vec<u32>,
    /// The position of each of them in the list.
    pub positions: Vec<usize>,
    /// A node for each of them, by its place in `ids`. Its row has an edge for each item: to the
    /// node of the owner of the name that the item uses, if that is one of them, else nowhere.
    pub uses: Graph,
}

/// The blocks that depend on an edit of a list: the block put in, which has the id `put`, and each
/// that reaches a name of it or one of the names `out` of the block taken out. The list is the new
/// one. The time is linear, up to a logarithm, in what the blocks found say and in how many use
/// their names.
///
/// # Errors
/// Out of memory.
pub fn find_dependents(
    alloc: Global,
    slots: &Slots,
    put: Option<u32>,
    out: &[RcSlice<u8>],
) -> Result<Dependents, AllocError>
    requires put { (id : ℕ) → put ≡ Some id → (at : ℕ) × StandsAt slots.now at id }
    ensures distinct { IfOk result (λ d. AreDistinct (ids_of slots.now)) }
    ensures found { IfOk result (λ d. AreDependentIds slots.now put (map rc_slice_items out.now) d.ids.items d.positions.items) }
    ensures uses { IfOk result (λ d. IsGraphOfUses slots.now d.ids.items d.uses) }
    ensures graph { IfOk result (λ d. IsGraph d.uses) }
{
    let mut found = IndexSet::new(alloc);
    search(slots, put, out, &mut found)?;
    blocks_found(alloc, slots, &found)
}

// Blocks that a search found, their positions, and which of them use each other.
fn blocks_found(
    alloc: Global,
    slots: &Slots,
    found: &IndexSet<u32>,
) -> Result<Dependents, AllocError>
    requires { (i id : ℕ) → slice_get found.now.keys i ≡ Some id → Has (ids_of slots.now) id }
    ensures placed { IfOk result (λ d. ArePlaced (ids_of slots.now) found.now.keys d.ids.items d.positions.items) }
    ensures uses { IfOk result (λ d. IsGraphOfUses slots.now d.ids.items d.uses) }
    ensures graph { IfOk result (λ d. IsGraph d.uses) }
{
    let ids = Vec::from_slice(alloc, found.as_slice())?;
    let positions = slots.positions(alloc, &ids)?;
    let uses = graph_of_uses(alloc, slots, found)?;
    Ok(Dependents {
        ids,
        positions,
        uses,
    })
}

/// All blocks of a list, in its order, and which of them use each other: what depends on a list
/// that is made in one go. The time is linear, up to a logarithm, in what the blocks say.
///
/// # Errors
/// Out of memory.
pub fn find_all(alloc: Global, slots: &Slots) -> Result<Dependents, AllocError>
    ensures distinct { IfOk result (λ d. AreDistinct (ids_of slots.now)) }
    ensures all { IfOk result (λ d. AreAllIds slots.now d.ids.items d.positions.items) }
    ensures uses { IfOk result (λ d. IsGraphOfUses slots.now d.ids.items d.uses) }
    ensures graph { IfOk result (λ d. IsGraph d.uses) }
{
    let listed = listed_ids(alloc, slots)?;
    blocks_listed(alloc, slots, &listed)
}

// All blocks of a list, in its order, their positions, and which of them use each other.
fn blocks_listed(
    alloc: Global,
    slots: &Slots,
    listed: &IndexSet<u32>,
) -> Result<Dependents, AllocError>
    requires { listed.now.keys ≡ ids_of slots.now }
    ensures all { IfOk result (λ d. AreAllIds slots.now d.ids.items d.positions.items) }
    ensures uses { IfOk result (λ d. IsGraphOfUses slots.now d.ids.items d.uses) }
    ensures graph { IfOk result (λ d. IsGraph d.uses) }
{
    let ids = Vec::from_slice(alloc, listed.as_slice())?;
    let positions = positions(alloc, ids.len())?;
    let uses = graph_of_uses(alloc, slots, listed)?;
    Ok(Dependents {
        ids,
        positions,
        uses,
    })
}
