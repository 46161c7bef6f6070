//! Which blocks use each other.
ghost use Rattle.std.specs.Prelude.{◌≡◌, ◌++◌, ◌∷◌, [], ℕ, List, length, map, slice_get, IfOk, OnOk};
ghost use Rattle.user_items.specs.Reading.{user_item_of, user_reading_of};
ghost use Rattle.user_values.specs.Uses.{edge_of, rows_of, row_of};

use base_components::Graph;
use std::alloc::{AllocError, Global};
use ti_base::RuledDatabase;
use user_items::{UserItem, UserItems, UserWhat};

// The block that an item uses, if it is a use of a name that a block has.
fn edge_of(database: &RuledDatabase, item: &UserItem) -> Option<usize>
    ensures { result ≡ edge_of database.now.texts (user_item_of item.now) }
{
    match &item.what {
        UserWhat::Import(name) => database.owner(name.as_slice()),
        UserWhat::Says(_, _) => None,
    }
}

// Adds a node with an edge for each item.
fn add_row(database: &RuledDatabase, items: &[UserItem], uses: &mut Graph) -> Result<(), AllocError>
    ensures { OnOk result (uses.new ≡ uses.old ++ row_of database.now.texts (map user_item_of items.now) ∷ []) }
{
    uses.add_node()?;
    for item in items {
        uses.add_edge(edge_of(database, item))?;
    }
    Ok(())
}

/// A node for each block, with an edge for each of its items that speak of user-defined
/// capabilities: to the block that it uses, if it uses one.
pub(crate) fn graph_of_uses(
    alloc: Global,
    database: &RuledDatabase,
    reads: &[UserItems],
) -> Result<Graph, AllocError>
    ensures { IfOk result (λ graph. graph ≡ rows_of database.now.texts (map user_reading_of reads.now)) }
{
    let mut uses = Graph::with_capacity(alloc, reads.len(), reads.len())?;
    for read in reads {
        add_row(database, &read.items, &mut uses)?;
    }
    Ok(uses)
}
