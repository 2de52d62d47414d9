ghost use Rattle.std.specs.Prelude.{◌≡◌, ◌≢◌, IsOk, IfOk, OnOk};
ghost use Rattle.graph_types.specs.meaning.Graph.{with_edge, without_edge, without_vertex, with_vertex, edge_between};
ghost use Rattle.mining_model.specs.meaning.Step.{graph_after, step as graph_step};
ghost use Rattle.update_rules.specs.meaning.Parts.{changes_between};
ghost use Rattle.update_rules.specs.calls.Overlays.{IsOverlaid, PutsBoth, PutsEntry};

use crate::ChangeList;
use crate::changes::{Entries, Place, changes_until};
use graph_types::{LabelId, NoMemory, Snapshot, Update, VertexId};
use std::alloc::Global;

/// What differs between the graph and the graph after the update, which it accepts. Takes constant time
/// with a few look-ups, and to remove a vertex a few look-ups for each of its edges.
pub fn changes_by(alloc: Global, graph: &Snapshot, update: &Update) -> Result<ChangeList, NoMemory>
    requires { IsOk (graph_step graph.now update.now) }
    ensures { IfOk result (λ changes. changes ≡ changes_between graph.now (graph_after graph.now update.now)) }
{
    graph.simple();
    let entries = written_by(alloc, graph, update)?;
    changes_until(alloc, graph, &entries)
}

/// What the update, which the graph accepts, leaves at each entry that it changes, or gives again. Takes
/// constant time, and to remove a vertex time linear in the number of its edges.
pub fn written_by(alloc: Global, graph: &Snapshot, update: &Update) -> Result<Entries, NoMemory>
    requires { IsOk (graph_step graph.now update.now) }
    ensures { IfOk result (λ entries. IsOverlaid entries graph.now (graph_after graph.now update.now)) }
{
    match *update {
        Update::AddVertex { id, label } => label_write(alloc, graph, id, label),
        Update::RemoveVertex { id } => removal_writes(alloc, graph, id),
        Update::LabelVertex { id, label } => label_write(alloc, graph, id, label),
        Update::AddEdge { from, to, label } => edge_writes(alloc, graph, from, to, label),
        Update::RemoveEdge { from, to } => edge_removal_writes(alloc, graph, from, to),
        Update::LabelEdge { from, to, label } => edge_writes(alloc, graph, from, to, label),
    }
}

fn label_write(
    alloc: Global,
    graph: &Snapshot,
    vertex: VertexId,
    label: LabelId,
) -> Result<Entries, NoMemory>
    ensures { IfOk result (λ entries. IsOverlaid entries graph.now (with_vertex graph.now vertex label)) }
{
    let mut entries = Entries::new(alloc);
    put(&mut entries, (vertex, None), &Some(label))?;
    Ok(entries)
}

fn edge_writes(
    alloc: Global,
    graph: &Snapshot,
    from: VertexId,
    to: VertexId,
    label: LabelId,
) -> Result<Entries, NoMemory>
    requires { from ≢ to }
    ensures { IfOk result (λ entries. IsOverlaid entries graph.now (with_edge graph.now (edge_between from to) label)) }
{
    let mut entries = Entries::new(alloc);
    put_both(&mut entries, from, to, &Some(label))?;
    Ok(entries)
}

fn edge_removal_writes(
    alloc: Global,
    graph: &Snapshot,
    from: VertexId,
    to: VertexId,
) -> Result<Entries, NoMemory>
    requires { from ≢ to }
    ensures { IfOk result (λ entries. IsOverlaid entries graph.now (without_edge graph.now (edge_between from to))) }
{
    let mut entries = Entries::new(alloc);
    put_both(&mut entries, from, to, &None)?;
    Ok(entries)
}

fn removal_writes(alloc: Global, graph: &Snapshot, vertex: VertexId) -> Result<Entries, NoMemory>
    ensures { IfOk result (λ entries. IsOverlaid entries graph.now (without_vertex graph.now vertex)) }
{
    graph.simple();
    let mut entries = Entries::new(alloc);
    put(&mut entries, (vertex, None), &None)?;
    let near = graph.near(alloc, vertex)?;
    for to in &near {
        put_both(&mut entries, vertex, *to, &None)?;
    }
    Ok(entries)
}

/// Puts the label of an edge in at both its ends.
fn put_both(
    entries: &mut Entries,
    x: VertexId,
    y: VertexId,
    label: &Option<LabelId>,
) -> Result<(), NoMemory>
    ensures { OnOk result (PutsBoth entries.old entries.new x y label.now) }
{
    put(entries, (x, Some(y)), label)?;
    put(entries, (y, Some(x)), label)?;
    Ok(())
}

fn put(entries: &mut Entries, place: Place, label: &Option<LabelId>) -> Result<(), NoMemory>
    ensures { OnOk result (PutsEntry entries.old entries.new place label.now) }
{
    entries.insert(place, *label)?;
    Ok(())
}
