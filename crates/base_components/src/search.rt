//! The path search of Purdom and Munro, as Gabow simplified it: depth first, with a cursor for each
//! node, and with the nodes of open components on one path.
ghost use Rattle.std.specs.Prelude.{◌≡◌, ◌<◌, ◌≤◌, ℕ, Some, slice_get, vec_len, OnOk, IfOk};
ghost use Rattle.base_components.specs.Graph.{IsGraph};
ghost use Rattle.base_components.specs.inside.Search.{ClosesPath, Enters, Follows, IsCutOffAt, IsFresh, IsIdle, IsMarked, IsSearched, IsWalkOf, Leaves, Rises, Steps, WalksFrom};
ghost use Rattle.ti_text.specs.Lists.{AreBelow};
ghost use Rattle.base_components.specs.declared.search.Progress.TheVariants.{Unseen};

use crate::graph::Graph;
use std::alloc::{AllocError, Global};

/// How far the search has come with a node.
#[derive(Clone, Copy)]
pub(crate) enum Progress {
    /// It was not met.
    Unseen,
    /// It is at this place of the path, in a component that is still open.
    OnPath(usize),
    /// Its component was closed and has this number.
    Closed(usize),
}

/// A search at work. Each list has room for all nodes from the beginning.
#[derive(Drop)]
pub(crate) struct Search {
    /// How far it has come with each node.
    pub(crate) progress: Vec<Progress>,
    /// How many edges of each node it has gone through.
    pub(crate) cursors: Vec<usize>,
    /// The nodes of open components, each reached from the one before it.
    pub(crate) path: Vec<usize>,
    /// The places of the path where components start, as far as is known.
    pub(crate) starts: Vec<usize>,
    /// The places of the path whose edges were not all gone through.
    pub(crate) active: Vec<usize>,
    /// The nodes of closed components.
    pub(crate) order: Vec<usize>,
}

impl Search {
    // A search that has met no node.
    fn new(alloc: Global, nodes: usize) -> Result<Search, AllocError>
        ensures { IfOk result (λ search. IsFresh search nodes) }
    {
        let mut progress = Vec::with_capacity(alloc, nodes)?;
        let mut cursors = Vec::with_capacity(alloc, nodes)?;
        for _node in 0..nodes {
            progress.push(Progress::Unseen)?;
            cursors.push(0)?;
        }
        Ok(Search {
            progress,
            cursors,
            path: Vec::with_capacity(alloc, nodes)?,
            starts: Vec::with_capacity(alloc, nodes)?,
            active: Vec::with_capacity(alloc, nodes)?,
            order: Vec::with_capacity(alloc, nodes)?,
        })
    }

    // Puts a node at the end of the path, as the start of a component of its own.
    fn enter(&mut self, node: usize) -> Result<(), AllocError>
        requires { node < vec_len self.old.progress }
        ensures { OnOk result (Enters self.old self.new node) }
    {
        let place = self.path.len();
        self.path.push(node)?;
        self.starts.push(place)?;
        self.active.push(place)?;
        self.progress[node] = Progress::OnPath(place);
        Ok(())
    }

    // Follows an edge: a node that was not met is put on the path, and if the edge leads back on
    // the path no component starts after that node.
    fn follow(&mut self, edge: Option<usize>) -> Result<(), AllocError>
        requires within { (target : ℕ) → edge ≡ Some target → target < vec_len self.old.progress }
        requires rises { Rises self.old.starts.items }
        ensures { OnOk result (Follows self.old self.new edge) }
    {
        let Some(target) = edge else {
            return Ok(());
        };
        match self.progress[target] {
            Progress::Unseen => self.enter(target)?,
            Progress::OnPath(place) => cut_above(&mut self.starts, place),
            Progress::Closed(_) => {}
        }
        Ok(())
    }

    // Closes the component of the nodes that are on the path from a place on.
    fn close(&mut self, start: usize) -> Result<(), AllocError>
        requires within { start ≤ vec_len self.old.path }
        requires nodes { AreBelow self.old.path.items (vec_len self.old.progress) }
        ensures { OnOk result (ClosesPath self.old self.new start) }
    {
        let number = self.order.len();
        let nodes = &self.path[start..];
        mark_closed(&mut self.progress, nodes, number);
        self.order.extend_from_slice(nodes)?;
        self.path.truncate(start);
        Ok(())
    }

    // Leaves the last active place, of which no edge is left, and closes the component that starts
    // there, if one does.
    fn leave(&mut self) -> Result<(), AllocError>
        requires active { 0 < vec_len self.old.active }
        requires starts { 0 < vec_len self.old.starts }
        requires within { (k : ℕ) (place : ℕ) → slice_get self.old.active.items k ≡ Some place → place < vec_len self.old.path }
        requires nodes { AreBelow self.old.path.items (vec_len self.old.progress) }
        ensures { OnOk result (Leaves self.old self.new) }
    {
        let top = self.active.len() - 1;
        let place = self.active[top];
        self.active.truncate(top);
        let last = self.starts.len() - 1;
        if self.starts[last] == place {
            self.starts.truncate(last);
            self.close(place)?;
        }
        Ok(())
    }

    // Follows one more edge of the node at the last active place, or leaves that place.
    fn step(&mut self, graph: &Graph) -> Result<(), AllocError>
        requires graph { IsGraph graph.now }
        requires walk { IsWalkOf graph.now self.old }
        requires active { 0 < vec_len self.old.active }
        ensures { OnOk result (Steps graph.now self.old self.new) }
    {
        let place = self.active[self.active.len() - 1];
        let node = self.path[place];
        let row = graph.row(node);
        let next = self.cursors[node];
        if next < row.len() {
            self.follow(row[next])?;
            self.cursors[node] = next + 1;
        } else {
            self.leave()?;
        }
        Ok(())
    }

    // Closes the component of a node that was not met, and before it those that it leads to.
    fn walk(&mut self, graph: &Graph, root: usize) -> Result<(), AllocError>
        requires graph { IsGraph graph.now }
        requires idle { IsIdle graph.now self.old }
        requires unseen { slice_get self.old.progress.items root ≡ Some Unseen }
        ensures { OnOk result (WalksFrom graph.now self.old self.new root) }
    {
        self.enter(root)?;
        while !self.active.is_empty() {
            self.step(graph)?;
        }
        Ok(())
    }
}

// Takes the starts above a place off.
fn cut_above(starts: &mut Vec<usize>, place: usize)
    requires { Rises starts.old.items }
    ensures { IsCutOffAt starts.old.items starts.new.items place }
{
    let mut count = starts.len();
    while count > 0 && starts[count - 1] > place {
        count -= 1;
    }
    starts.truncate(count);
}

// Closes nodes under a number.
fn mark_closed(progress: &mut Vec<Progress>, nodes: &[usize], number: usize)
    requires { AreBelow nodes.now (vec_len progress.old) }
    ensures { IsMarked progress.old.items progress.new.items nodes.now number }
{
    for node in nodes {
        progress[*node] = Progress::Closed(number);
    }
}

/// Searches a whole graph.
pub(crate) fn search_graph(alloc: Global, graph: &Graph) -> Result<Search, AllocError>
    requires { IsGraph graph.now }
    ensures { IfOk result (λ search. IsSearched graph.now search) }
{
    let nodes = graph.node_count();
    let mut search = Search::new(alloc, nodes)?;
    for root in 0..nodes {
        if let Progress::Unseen = search.progress[root] {
            search.walk(graph, root)?;
        }
    }
    Ok(search)
}
