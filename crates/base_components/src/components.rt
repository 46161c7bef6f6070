//! The strongly connected components of a graph.
ghost use Rattle.std.specs.Prelude.{ℕ, ◌<◌, length, IfOk};
ghost use Rattle.base_components.specs.Graph.{IsGraph};
ghost use Rattle.base_components.specs.Components.{AreComponents, IsClosingOrder};
ghost use Rattle.base_components.specs.inside.Search.{AreClosedNumbers, IsClosed};

use crate::graph::Graph;
use crate::search::{Progress, Search, search_graph};
use std::alloc::{AllocError, Global};

/// The strongly connected components of a directed graph: two nodes are in one component exactly
/// if each leads to the other.
#[derive(Drop)]
pub struct Components {
    /// The number of each node's component. Along an edge no number rises.
    pub component_of: Vec<usize>,
    /// All nodes, each after those that its edges lead to, but for nodes of its own component. A
    /// component's nodes are next to each other, and its number is the place of the first.
    pub order: Vec<usize>,
}

impl Components {
    /// The components of a graph, by the path search of Purdom and Munro (1970) and Gabow (2000),
    /// in time linear in its nodes and edges. Each edge leads to a node or nowhere.
    ///
    /// # Errors
    /// Out of memory.
    pub fn find(alloc: Global, graph: &Graph) -> Result<Components, AllocError>
        requires { IsGraph graph.now }
        ensures components { IfOk result (λ c. AreComponents graph.now c.component_of.items) }
        ensures order { IfOk result (λ c. IsClosingOrder graph.now c.component_of.items c.order.items) }
    {
        let Search {
            progress,
            cursors: _,
            path: _,
            starts: _,
            active: _,
            order,
        } = search_graph(alloc, graph)?;
        let component_of = numbers(alloc, &progress)?;
        Ok(Components {
            component_of,
            order,
        })
    }
}

// The numbers of closed components.
fn numbers(alloc: Global, progress: &[Progress]) -> Result<Vec<usize>, AllocError>
    requires { (v : ℕ) → v < length progress.now → IsClosed progress.now v }
    ensures { IfOk result (λ numbers. AreClosedNumbers progress.now numbers.items) }
{
    let mut numbers = Vec::with_capacity(alloc, progress.len())?;
    for node in progress {
        let Progress::Closed(number) = node else {
            unreachable!()
        };
        numbers.push(*number)?;
    }
    Ok(numbers)
}
