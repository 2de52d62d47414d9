//! Graphs, and updates that change them.

use crate::case::Case;
use crate::draws::Draws;
use graph_types::{Edge, LabelId, List, NoMemory, Snapshot, Update, VertexId};
use std::alloc::Global;
use update_rules::{StepFault, step};

/// The updates that make a graph: most of its vertices, in every second graph a hub, and then edges between any two.
pub fn draw_graph(
    alloc: Global,
    draws: &mut Draws,
    case: Case,
    has_hub: bool,
) -> Result<List<Update>, NoMemory> {
    let mut updates = List::new(alloc);
    for place in 0..case.vertices {
        if draws.below(16) > 0 {
            let id = VertexId(place);
            let label = LabelId(draws.below(case.labels));
            updates.push(Update::AddVertex { id, label })?;
        }
    }
    if has_hub {
        draw_hub(&mut updates, draws, case)?;
    }
    for _ in 0..case.edges {
        let from = VertexId(draws.below(case.vertices));
        let to = VertexId(draws.below(case.vertices));
        let label = LabelId(draws.below(case.labels));
        updates.push(Update::AddEdge { from, to, label })?;
    }
    Ok(updates)
}

/// Joins the first vertex with all others that are there.
fn draw_hub(updates: &mut List<Update>, draws: &mut Draws, case: Case) -> Result<(), NoMemory> {
    for place in 0..case.vertices {
        let from = VertexId(0);
        let to = VertexId(place);
        let label = LabelId(draws.below(case.labels));
        updates.push(Update::AddEdge { from, to, label })?;
    }
    Ok(())
}

/// The graph that these updates make, without those that are refused.
pub fn build(alloc: Global, updates: &[Update]) -> Result<Snapshot, NoMemory> {
    let mut graph = Snapshot::new(alloc);
    for update in updates {
        match step(&mut graph, update) {
            Ok(()) => {}
            Err(StepFault::Refused(_)) => {}
            Err(StepFault::NoMemory) => return Err(NoMemory),
        }
    }
    Ok(graph)
}

/// An update that the graph accepts for the most part: of a vertex one time in ten, or where one is absent, and else
/// of an edge.
pub fn draw_update(draws: &mut Draws, graph: &Snapshot, case: Case) -> Update {
    let from = draw_vertex(draws, case);
    let to = draw_vertex(draws, case);
    let label = LabelId(draws.below(case.labels));
    let kind = draws.below(20);
    if kind < 2 || graph.label(from).is_none() {
        vertex_update(graph, from, label, kind)
    } else if graph.label(to).is_none() {
        Update::AddVertex { id: to, label }
    } else {
        edge_update(graph, from, to, label, kind)
    }
}

/// A vertex, one time in four the first.
fn draw_vertex(draws: &mut Draws, case: Case) -> VertexId {
    if draws.below(4) == 0 {
        VertexId(0)
    } else {
        VertexId(draws.below(case.vertices))
    }
}

/// Adds a vertex that is absent, and removes or labels one that is there.
fn vertex_update(graph: &Snapshot, id: VertexId, label: LabelId, kind: u32) -> Update {
    if graph.label(id).is_none() {
        Update::AddVertex { id, label }
    } else if kind == 0 {
        Update::RemoveVertex { id }
    } else {
        Update::LabelVertex { id, label }
    }
}

/// Adds an edge that is absent, and removes or labels one that is there.
fn edge_update(
    graph: &Snapshot,
    from: VertexId,
    to: VertexId,
    label: LabelId,
    kind: u32,
) -> Update {
    if !has_edge(graph, from, to) {
        Update::AddEdge { from, to, label }
    } else if kind < 10 {
        Update::LabelEdge { from, to, label }
    } else {
        Update::RemoveEdge { from, to }
    }
}

fn has_edge(graph: &Snapshot, from: VertexId, to: VertexId) -> bool {
    match Edge::of(from, to) {
        Some(edge) => graph.edge_label(edge).is_some(),
        None => false,
    }
}
