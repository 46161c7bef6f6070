//! The strongly connected components of a directed graph, in an order in which each component comes
//! after those that its edges lead to.
//!
//! That order takes the place of a queue of nodes that are ready, those whose edges lead to nodes
//! that are done: the nodes of a cycle never become ready, and would have to be told from what is
//! left in the queue.
//!
//! - `graph`: a graph, each node a row of edges
//! - `components`: its components and their order
//! - `laws`: what its numbers say
//! - `search`: the path search that finds them, without recursion
#![tactic(auto)]

mod components;
mod graph;
pub mod laws;
mod search;

pub use components::Components;
pub use graph::Graph;
