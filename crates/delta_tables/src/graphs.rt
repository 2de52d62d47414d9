//! Graphs, and groups of updates that change them.
ghost use Rattle.std.specs.Prelude.{IfOk, IsTrue, OnOk, ◌≡◌};
ghost use Rattle.graph_types.specs.meaning.Graph.{Graph, empty_graph};
ghost use Rattle.group_window.specs.meaning.Windows.{HasRoom, StandsOn};
ghost use Rattle.mining_model.specs.meaning.Step.{graph_after, graph_after_all};
ghost use Rattle.delta_tables.specs.calls.Changing.{HasOneGroup, IsChanging};

use crate::case::Case;
use crate::draws::Draws;
use graph_types::{Edge, LabelId, List, NoMemory, Snapshot, Stamp, Update, VertexId};
use group_window::Window;
use std::alloc::Global;
use update_rules::{StepFault, step};

/// Updates that make a graph: most of its vertices, and then edges between any two.
pub fn draw_graph(alloc: Global, draws: &mut Draws, case: Case) -> Result<List<Update>, NoMemory> {
    let mut updates = List::new(alloc);
    for place in 0..case.vertices {
        if draws.below(8) > 0 {
            let id = VertexId(place);
            let label = LabelId(draws.below(case.labels));
            updates.push(Update::AddVertex { id, label })?;
        }
    }
    for _ in 0..case.edges {
        let from = VertexId(draws.below(case.vertices));
        let to = VertexId(draws.below(case.vertices));
        let label = LabelId(draws.below(case.labels));
        updates.push(Update::AddEdge { from, to, label })?;
    }
    Ok(updates)
}

/// The graph that these updates make.
pub fn build(alloc: Global, updates: &[Update]) -> Result<Snapshot, NoMemory>
    ensures { IfOk result (λ graph. graph ≡ graph_after_all empty_graph updates.now) }
{
    let mut graph = Snapshot::new(alloc);
    for update in updates {
        make(&mut graph, update)?;
    }
    Ok(graph)
}

/// Makes an update, where the graph accepts it.
pub fn make(graph: &mut Snapshot, update: &Update) -> Result<(), NoMemory>
    ensures { OnOk result (graph.new ≡ graph_after graph.old update.now) }
{
    match step(graph, update) {
        Ok(()) => Ok(()),
        Err(StepFault::Refused(_)) => Ok(()),
        Err(StepFault::NoMemory) => Err(NoMemory),
    }
}

/// Changes the graph by a group of updates, each drawn for the graph that it meets. The window has this group alone.
pub fn change(
    alloc: Global,
    graph: &mut Snapshot,
    draws: &mut Draws,
    case: Case,
) -> Result<Window, NoMemory>
    ensures { IfOk result (λ window. HasOneGroup window graph.old graph.new) }
{
    let mut window = Window::new(alloc, Stamp(0), 1);
    window.begin_group();
    for _ in 0..=draws.below(case.updates) {
        let update = draw_update(draws, graph, case);
        push(&mut window, graph, &update)?;
    }
    window.end_group(graph)?;
    Ok(window)
}

/// Changes the graph by a group of these updates, without those that it refuses. The window has this group alone.
pub fn change_by(
    alloc: Global,
    graph: &mut Snapshot,
    updates: &[Update],
) -> Result<Window, NoMemory>
    ensures { IfOk result (λ window. HasOneGroup window graph.old graph.new) }
{
    let mut window = Window::new(alloc, Stamp(0), 1);
    window.begin_group();
    for update in updates {
        push(&mut window, graph, update)?;
    }
    window.end_group(graph)?;
    Ok(window)
}

/// Adds an update to the open group, where the graph accepts it and the group has room.
fn push(window: &mut Window, graph: &mut Snapshot, update: &Update) -> Result<(), NoMemory>
    requires { StandsOn window.old graph.old }
    ensures { (before : Graph) → IsChanging window.old before graph.old → IsChanging window.new before graph.new }
{
    if !has_room(window) {
        return Ok(());
    }
    match window.push(graph, update) {
        Ok(()) => Ok(()),
        Err(StepFault::Refused(_)) => Ok(()),
        Err(StepFault::NoMemory) => Err(NoMemory),
    }
}

pub fn has_room(window: &Window) -> bool
    ensures { IsTrue result → HasRoom window.now window.now.current }
{
    match window.open_len() {
        Some(len) => len < 1024,
        None => window.len() < 4096,
    }
}

/// An update that the graph accepts for the most part: of a vertex one time in five, or where one is absent, and else
/// of an edge.
pub fn draw_update(draws: &mut Draws, graph: &Snapshot, case: Case) -> Update {
    let from = VertexId(draws.below(case.vertices));
    let to = VertexId(draws.below(case.vertices));
    let label = LabelId(draws.below(case.labels));
    let kind = draws.below(10);
    if kind < 2 || graph.label(from).is_none() {
        vertex_update(graph, from, label, kind)
    } else if graph.label(to).is_none() {
        Update::AddVertex { id: to, label }
    } else {
        edge_update(graph, from, to, label, kind)
    }
}

/// Adds a vertex that is absent, and removes or labels one that is there.
fn vertex_update(graph: &Snapshot, id: VertexId, label: LabelId, kind: u32) -> Update {
    if graph.label(id).is_none() {
        Update::AddVertex { id, label }
    } else if kind == 0 {
        Update::RemoveVertex { id }
    } else {
        Update::LabelVertex { id, label }
    }
}

/// Adds an edge that is absent, and removes or labels one that is there.
fn edge_update(
    graph: &Snapshot,
    from: VertexId,
    to: VertexId,
    label: LabelId,
    kind: u32,
) -> Update {
    if !has_edge(graph, from, to) {
        Update::AddEdge { from, to, label }
    } else if kind < 5 {
        Update::LabelEdge { from, to, label }
    } else {
        Update::RemoveEdge { from, to }
    }
}

fn has_edge(graph: &Snapshot, from: VertexId, to: VertexId) -> bool {
    match Edge::of(from, to) {
        Some(edge) => graph.edge_label(edge).is_some(),
        None => false,
    }
}
