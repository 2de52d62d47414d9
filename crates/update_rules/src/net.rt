ghost use Rattle.std.specs.Prelude.{◌≡◌, IsOk, IfOk};
ghost use Rattle.std.specs.List.{filter_map, list_any};
ghost use Rattle.std.specs.List.Sorted.{IsStrictlySortedBy};
ghost use Rattle.std.specs.Ordering.{nat_cmp};
ghost use Rattle.graph_types.specs.meaning.Graph.{Graph};
ghost use Rattle.graph_types.specs.meaning.Simple.{IsSimple};
ghost use Rattle.mining_model.specs.meaning.NetChange.{net_change};
ghost use Rattle.mining_model.specs.meaning.Step.{graph_after, step as graph_step};
ghost use Rattle.update_rules.specs.calls.Telling.{edge_told, is_among, vertex_told};
ghost use Rattle.update_rules.specs.meaning.Parts.{changes_between};

use crate::writes::changes_by;
use crate::{Change, ChangeList};
use graph_types::{Edge, EdgeList, Net, NoMemory, Snapshot, Update, VertexId, VertexList};
use std::alloc::Global;

/// The net change of the graph and the graph after the update, which it accepts. Takes a few look-ups,
/// and to remove a vertex a few for each of its edges.
pub fn net_of(alloc: Global, graph: &Snapshot, update: &Update) -> Result<Net, NoMemory>
    requires { IsOk (graph_step graph.now update.now) }
    ensures { IfOk result (λ net. net ≡ net_change graph.now (graph_after graph.now update.now)) }
{
    graph.simple();
    let changes = changes_by(alloc, graph, update)?;
    net_of_changes(alloc, &changes)
}

/// The net change that these changes come to. Takes time linear in their number, with a search among the
/// changed vertices for each changed edge.
pub fn net_of_changes(alloc: Global, changes: &ChangeList) -> Result<Net, NoMemory>
    ensures { (before after : Graph) → IsSimple before → IsSimple after → changes.now ≡ changes_between before after →
        IfOk result (λ net. net ≡ net_change before after) }
{
    let vertices = vertices_told(alloc, changes)?;
    let edges = edges_told(alloc, changes, &vertices)?;
    Ok(Net { vertices, edges })
}

fn vertices_told(alloc: Global, changes: &ChangeList) -> Result<VertexList, NoMemory>
    ensures { IfOk result (λ vertices. vertices ≡ filter_map vertex_told changes.now) }
{
    let mut vertices = VertexList::new(alloc);
    for change in changes {
        if let Change::Label { vertex, .. } = *change {
            vertices.push(vertex)?;
        }
    }
    Ok(vertices)
}

fn edges_told(
    alloc: Global,
    changes: &ChangeList,
    vertices: &VertexList,
) -> Result<EdgeList, NoMemory>
    ensures { IsStrictlySortedBy nat_cmp vertices.now →
        IfOk result (λ edges. edges ≡ filter_map (edge_told vertices.now) changes.now) }
{
    let mut edges = EdgeList::new(alloc);
    for change in changes {
        if let Some(edge) = told_edge(change, vertices) {
            edges.push(edge)?;
        }
    }
    Ok(edges)
}

/// The edge that the change tells of, at its lower end alone, where it ends at none of the vertices.
fn told_edge(change: &Change, vertices: &[VertexId]) -> Option<Edge>
    ensures { IsStrictlySortedBy nat_cmp vertices.now → result ≡ edge_told vertices.now change.now }
{
    let Change::Near { vertex, to, .. } = *change else {
        return None;
    };
    if to <= vertex || has(vertices, vertex) || has(vertices, to) {
        return None;
    }
    Edge::of(vertex, to)
}

fn has(vertices: &[VertexId], vertex: VertexId) -> bool
    ensures { IsStrictlySortedBy nat_cmp vertices.now → result ≡ is_among vertices.now vertex }
{
    vertices.binary_search(&vertex).is_ok()
}
