ghost use Rattle.std.specs.Prelude.{◌≡◌, ◌≤◌, IsOk, IfOk};
ghost use Rattle.graph_types.specs.meaning.Graph.{Graph};
ghost use Rattle.graph_types.specs.meaning.Simple.{IsSimple};
ghost use Rattle.mining_model.specs.meaning.Step.{graph_after, step as graph_step};
ghost use Rattle.group_window.specs.calls.Differences.{IsDifference};
ghost use Rattle.update_rules.specs.meaning.Parts.{changes_between};

use graph_types::{Net, NoMemory, Snapshot, Update};
use std::alloc::Global;
use update_rules::{ChangeList, PartList, changes_by, net_of_changes, parts_of_changes};

/// What differs between two graphs, as a group of updates is told of: its net change and its parts.
#[derive(Drop)]
pub(crate) struct Difference {
    pub net: Net,
    pub parts: PartList,
}

/// What an update changes, which the graph accepts. Takes a few look-ups, and to remove a vertex a few for
/// each of its edges.
pub(crate) fn difference_by(
    alloc: Global,
    graph: &Snapshot,
    update: &Update,
    shards: u32,
) -> Result<Difference, NoMemory>
    requires accepted { IsOk (graph_step graph.now update.now) }
    requires some_shard { 1 ≤ shards }
    ensures { IfOk result (λ difference. IsDifference shards difference graph.now (graph_after graph.now update.now)) }
{
    graph.simple();
    let changes = changes_by(alloc, graph, update)?;
    difference_of_changes(alloc, &changes, shards)
}

/// What these changes come to. Takes a few look-ups for each.
pub(crate) fn difference_of_changes(
    alloc: Global,
    changes: &ChangeList,
    shards: u32,
) -> Result<Difference, NoMemory>
    requires { 1 ≤ shards }
    ensures { (before after : Graph) → IsSimple before → IsSimple after → changes.now ≡ changes_between before after →
        IfOk result (λ difference. IsDifference shards difference before after) }
{
    let net = net_of_changes(alloc, changes)?;
    let parts = parts_of_changes(alloc, changes, shards)?;
    Ok(Difference { net, parts })
}
