ghost use Rattle.std.specs.Prelude.{◌≡◌, IfOk};
ghost use Rattle.graph_types.specs.meaning.Graph.{Graph, label_between};
ghost use Rattle.graph_types.specs.meaning.Simple.{IsSimple};
ghost use Rattle.update_rules.specs.calls.Overlays.{IsOverlaid};
ghost use Rattle.update_rules.specs.meaning.Parts.{changes_between, change_to};
ghost use Rattle.update_rules.specs.meaning.Places.{entry_at};

use crate::ChangeList;
use graph_types::{Edge, LabelId, NoMemory, Snapshot, VertexId};
use std::alloc::Global;
use std::collections::BTreeMap;

/// An entry of a graph that differs from an earlier one, with what stands there now, or `None` where
/// nothing does any more.
#[derive(Clone, Copy, Debug, PartialEq, Eq)]
pub enum Change {
    /// The label of a vertex.
    Label {
        vertex: VertexId,
        label: Option<LabelId>,
    },
    /// The label of the edge from a vertex to another. An edge is told at each of its ends.
    Near {
        vertex: VertexId,
        to: VertexId,
        label: Option<LabelId>,
    },
}

/// Where an entry stands: at a vertex alone its label, at a vertex and another the label of their edge.
pub type Place = (VertexId, Option<VertexId>);

/// Some entries of a graph by their places, with what stands there, or `None` where nothing does.
pub type Entries = BTreeMap<Place, Option<LabelId>>;

/// What differs between an earlier graph and `graph`, where `earlier` has each entry of the earlier one
/// that differs, and may have more. Takes a look-up for each entry of `earlier`.
pub fn changes_since(
    alloc: Global,
    earlier: &Entries,
    graph: &Snapshot,
) -> Result<ChangeList, NoMemory>
    ensures { (before : Graph) → IsSimple before → IsOverlaid earlier.now graph.now before →
        IfOk result (λ changes. changes ≡ changes_between before graph.now) }
{
    graph.simple();
    let mut changes = ChangeList::new(alloc);
    for (place, was) in earlier {
        let is = entry(graph, *place);
        if *was != is {
            changes.push(change_at(*place, is))?;
        }
    }
    Ok(changes)
}

/// What differs between `graph` and a later one, where `later` has each entry of the later one that
/// differs, and may have more. Takes a look-up for each entry of `later`.
pub(crate) fn changes_until(
    alloc: Global,
    graph: &Snapshot,
    later: &Entries,
) -> Result<ChangeList, NoMemory>
    ensures { (after : Graph) → IsSimple after → IsOverlaid later.now graph.now after →
        IfOk result (λ changes. changes ≡ changes_between graph.now after) }
{
    graph.simple();
    let mut changes = ChangeList::new(alloc);
    for (place, is) in later {
        let was = entry(graph, *place);
        if was != *is {
            changes.push(change_at(*place, *is))?;
        }
    }
    Ok(changes)
}

/// What stands at a place, or `None` where nothing does. Takes a look-up.
pub fn entry(graph: &Snapshot, place: Place) -> Option<LabelId>
    ensures { result ≡ entry_at graph.now place }
{
    let (vertex, to) = place;
    match to {
        None => graph.label(vertex),
        Some(to) => edge_entry(graph, vertex, to),
    }
}

fn edge_entry(graph: &Snapshot, vertex: VertexId, to: VertexId) -> Option<LabelId>
    ensures { result ≡ label_between graph.now vertex to }
{
    let edge = Edge::of(vertex, to)?;
    graph.edge_label(edge)
}

fn change_at(place: Place, label: Option<LabelId>) -> Change
    ensures { result ≡ change_to place label }
{
    let (vertex, to) = place;
    match to {
        None => Change::Label { vertex, label },
        Some(to) => Change::Near { vertex, to, label },
    }
}
