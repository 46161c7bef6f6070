//! Which of the blocks found use each other.
ghost use Rattle.std.specs.Prelude.{◌≡◌, ℕ, Some, map, nat_eq, slice_get, OnOk, IfOk};
ghost use Rattle.ti_source.specs.Reading.{item_of};
ghost use Rattle.std.specs.List.{IsDistinct};
ghost use Rattle.ti_text.specs.Lists.{Has};
ghost use Rattle.base_slots.specs.Slots.{ids_of};
ghost use Rattle.base_components.specs.Graph.{IsGraph};
ghost use Rattle.base_dependents.specs.Dependents.{IsEdgeOf, IsGraphOfUses};
ghost use Rattle.base_dependents.specs.inside.Uses.{AddsRow};

use crate::blocks::block_of;
use base_components::Graph;
use base_slots::Slots;
use indexmap::IndexSet;
use std::alloc::{AllocError, Global};
use ti_source::{Item, What};

// The place among the blocks found of the owner of the name that an item uses.
fn edge_of(slots: &Slots, item: &Item, found: &IndexSet<u32>) -> Option<usize>
    requires { IsDistinct nat_eq found.now.keys }
    ensures { IsEdgeOf slots.now found.now.keys (item_of item.now) result }
{
    let What::Import(name) = &item.what else {
        return None;
    };
    let owner = slots.owner(name.as_slice())?;
    found.get_index_of(&owner)
}

// Adds a node with an edge for each item.
fn add_row(
    slots: &Slots,
    items: &[Item],
    found: &IndexSet<u32>,
    uses: &mut Graph,
) -> Result<(), AllocError>
    requires { IsDistinct nat_eq found.now.keys }
    ensures { OnOk result (AddsRow slots.now found.now.keys (map item_of items.now) uses.old uses.new) }
{
    uses.add_node()?;
    for item in items {
        uses.add_edge(edge_of(slots, item, found))?;
    }
    Ok(())
}

/// Which of the blocks found use each other: a node for each, with an edge for each of its items.
pub(crate) fn graph_of_uses(
    alloc: Global,
    slots: &Slots,
    found: &IndexSet<u32>,
) -> Result<Graph, AllocError>
    requires { (i id : ℕ) → slice_get found.now.keys i ≡ Some id → Has (ids_of slots.now) id }
    ensures uses { IfOk result (λ graph. IsGraphOfUses slots.now found.now.keys graph) }
    ensures graph { IfOk result IsGraph }
{
    let mut uses = Graph::with_capacity(alloc, found.len(), found.len())?;
    for id in found.as_slice() {
        add_row(slots, &block_of(slots, *id).items, found, &mut uses)?;
    }
    Ok(uses)
}
