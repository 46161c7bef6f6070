//! A directed graph in two lists: the ends of all edges, and where the edges of each node begin.
ghost use Rattle.std.specs.Prelude.{◌≡◌, ◌<◌, ◌↔◌, ◌++◌, ◌∷◌, [], ℕ, Some, slice_get, sum_by, length, IsTrue, OnOk, OnErr, IfOk};
ghost use Rattle.base_components.specs.inside.Graph.{IsRow};
ghost use Rattle.base_components.specs.Graph.{AddsEdge, AreStarts, IsGraph};

use std::alloc::{AllocError, Global};
use std::marker::Model;

/// A directed graph. A node is named by its number, counted from 0, and has a row of edges. An edge
/// may lead nowhere, so that the row can go along what it was made from, item by item.
#[derive(Drop)]
pub struct Graph {
    targets: Vec<Option<usize>>,
    starts: Vec<usize>,
}

impl Model for Graph {
    ghost use Rattle.std.specs.Prelude.{List, Option, ℕ};
    ghost use Rattle.base_components.specs.Graph.{rows_of, AreStarts};

    ghost Value = { List (List (Option ℕ)) };

    ghost view = { λ g. rows_of g.targets.items g.starts.items };

    ghost invariant = { λ g. AreStarts g.targets.items g.starts.items };
}

impl Graph {
    /// A graph without nodes, with room for these numbers of nodes and edges. That it makes the
    /// room is in no clause: without it the calls are right, and slower.
    ///
    /// # Errors
    /// Out of memory.
    pub fn with_capacity(alloc: Global, nodes: usize, edges: usize) -> Result<Graph, AllocError>
        ensures { IfOk result (λ graph. graph ≡ []) }
    {
        let targets = Vec::with_capacity(alloc, edges)?;
        let starts = Vec::with_capacity(alloc, nodes)?;
        Ok(Graph { targets, starts })
    }

    /// The number of nodes.
    pub fn node_count(&self) -> usize
        ensures { result ≡ length self.now }
    {
        self.starts.len()
    }

    /// The number of edges, with those that lead nowhere.
    pub fn edge_count(&self) -> usize
        ensures { result ≡ sum_by length self.now }
    {
        if self.starts.is_empty() {
            return 0;
        }
        self.targets.len() - self.starts[0]
    }

    /// Adds a node without edges, the last of all.
    ///
    /// # Errors
    /// Out of memory; then the graph stays.
    pub fn add_node(&mut self) -> Result<(), AllocError>
        ensures ok { OnOk result (self.new ≡ self.old ++ [] ∷ []) }
        ensures err { OnErr result (self.new ≡ self.old) }
    {
        self.starts.push(self.targets.len())?;
        Ok(())
    }

    /// Adds an edge to the last node's row, after the others.
    ///
    /// # Errors
    /// Out of memory; then the graph stays.
    pub fn add_edge(&mut self, target: Option<usize>) -> Result<(), AllocError>
        requires { 0 < length self.old }
        ensures ok { OnOk result (AddsEdge self.old self.new target) }
        ensures nodes { length self.new ≡ length self.old }
        ensures err { OnErr result (self.new ≡ self.old) }
    {
        self.targets.push(target)?;
        Ok(())
    }

    /// The edges of a node: to which node each leads, if it leads to one.
    pub fn row(&self, node: usize) -> &[Option<usize>]
        requires { node < length self.now }
        ensures { slice_get self.now node ≡ Some result.now }
    {
        let (start, end) = row_bounds(&self.targets, &self.starts, node);
        &self.targets[start..end]
    }

    /// Whether each edge leads to a node of the graph, or nowhere.
    pub fn is_whole(&self) -> bool
        ensures { IsTrue result ↔ IsGraph self.now }
    {
        for node in 0..self.node_count() {
            if !is_row_below(self.row(node), self.node_count()) {
                return false;
            }
        }
        true
    }
}

// Whether the edges of a row lead to nodes below a number, or nowhere.
fn is_row_below(row: &[Option<usize>], nodes: usize) -> bool
    ensures { IsTrue result ↔ ((k : ℕ) (to : ℕ) → slice_get row.now k ≡ Some (Some to) → to < nodes) }
{
    for edge in row {
        if let Some(target) = edge {
            if *target >= nodes {
                return false;
            }
        }
    }
    true
}

// Where the row of a node starts and ends among all edges.
fn row_bounds(targets: &[Option<usize>], starts: &[usize], node: usize) -> (usize, usize)
    requires starts { AreStarts targets.now starts.now }
    requires within { node < length starts.now }
    ensures { IsRow targets.now starts.now node result.0 result.1 }
{
    let next = node + 1;
    let end = if next < starts.len() {
        starts[next]
    } else {
        targets.len()
    };
    (starts[node], end)
}
