//! Calls of `base_components`: graphs and their components. A word is a node: the nodes to which
//! its edges lead, with `,` between them, `x` for an edge that leads nowhere, and `-` for no edges.
use base_components::{Components, Graph};
use std::alloc::Global;
use test_rows::{NO_CALL, Row, RowResult, count_of, text_of};

// The node to which an edge leads.
fn target_of(word: &str) -> RowResult<Option<usize>> {
    if word == "x" {
        return Ok(None);
    }
    Ok(Some(count_of(word.as_bytes())?))
}

fn add_edge(graph: &mut Graph, target: Option<usize>) -> RowResult {
    if graph.node_count() > 0 {
        graph.add_edge(target)?;
    }
    Ok(())
}

// A graph of nodes and their edges.
fn graph_of(alloc: Global, words: &[Vec<u8>]) -> RowResult<Graph> {
    let mut graph = Graph::with_capacity(alloc, words.len(), 0)?;
    for word in words {
        graph.add_node()?;
        let edges = text_of(word)?;
        if edges != "-" {
            add_edges(&mut graph, edges)?;
        }
    }
    Ok(graph)
}

fn add_edges(graph: &mut Graph, edges: &str) -> RowResult {
    for edge in edges.split(',') {
        add_edge(graph, target_of(edge)?)?;
    }
    Ok(())
}

// A chain of nodes, each with an edge to the one before it, and the first to the one given.
fn chain(row: &Row<'_>) -> RowResult<Graph> {
    let (nodes, first) = (row.count(0)?, target_of(row.text(1)?)?);
    let mut graph = Graph::with_capacity(row.alloc, nodes, nodes)?;
    for node in 0..nodes {
        graph.add_node()?;
        add_edge(&mut graph, node.checked_sub(1).or(first))?;
    }
    Ok(graph)
}

fn say_counts(row: &mut Row<'_>, counts: &[usize]) -> RowResult {
    for count in counts {
        row.show(count)?;
    }
    Ok(())
}

// The number of each node's component, and the nodes in closing order.
fn say_components(row: &mut Row<'_>, found: &Components) -> RowResult {
    row.say(b"numbers")?;
    say_counts(row, &found.component_of)?;
    row.say(b"order")?;
    say_counts(row, &found.order)
}

// The least and the greatest number of a component, and that of the last node.
fn say_numbers(row: &mut Row<'_>, numbers: &[usize]) -> RowResult {
    for number in [numbers.iter().min(), numbers.iter().max(), numbers.last()] {
        row.show(number.unwrap_or(&0))?;
    }
    Ok(())
}

/// Makes a call of this library: what its components are after the count of the edges, or `open` if
/// an edge leads past the last node.
pub fn call(name: &str, row: &mut Row<'_>) -> RowResult {
    let is_chain = name == "chain";
    let graph = match name {
        "components" => graph_of(row.alloc, row.from(0))?,
        "chain" => chain(row)?,
        _ => return Err(NO_CALL),
    };
    if !is_chain {
        row.show(&graph.edge_count())?;
    }
    if !graph.is_whole() {
        return row.say(b"open");
    }
    let found = Components::find(row.alloc, &graph)?;
    if is_chain {
        say_numbers(row, &found.component_of)
    } else {
        say_components(row, &found)
    }
}
