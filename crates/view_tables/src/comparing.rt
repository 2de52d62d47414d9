//! What shards tell beside plain snapshots, on one graph after another.
ghost use Rattle.std.specs.Prelude.{◌≤◌, OnOk};
ghost use Rattle.shard_state.specs.calls.Viewing.{CanBeViewed};
ghost use Rattle.shard_state.specs.calls.Sharing.{TellGroups};

use crate::case::Case;
use crate::draws::Draws;
use crate::groups::{History, make_history};
use crate::outcome::{Outcome, Sums};
use crate::shards::Shards;
use graph_types::{
    FetchStop, GraphView, Near, NoMemory, Pair, Snapshot, Stamp, TwoSnapshots, VertexId,
};
use shard_state::{OwnedView, Shard};
use std::alloc::Global;

/// Compares the two on the graphs of a case, up to the first where they differ.
pub fn compare_all(alloc: Global, case: Case) -> Result<Outcome, NoMemory>
    requires { 1 ≤ case.shards }
{
    let mut sums = Sums::new();
    for graph in case.first..case.first.saturating_add(case.graphs) {
        if !compare(alloc, case, graph, &mut sums)? {
            return Ok(Outcome::Difference(graph));
        }
    }
    Ok(Outcome::Agreement(sums))
}

/// Whether the two agree on the graph with a number: with half the groups taken in, where they are pruned to half of
/// these, then with all groups but one, where they are pruned to the last that they took in, and then with all.
fn compare(alloc: Global, case: Case, graph: u32, sums: &mut Sums) -> Result<bool, NoMemory>
    requires { 1 ≤ case.shards }
{
    let mut draws = Draws::new(graph);
    let history = make_history(alloc, &mut draws, case, graph % 2 == 1)?;
    let mut shards = Shards::empty(alloc, case.shards, &history.window)?;
    let groups = history.window.len();
    let half = groups / 2;
    let most = groups.saturating_sub(1);
    let agree = go_on(alloc, case, &history, &mut shards, half, half / 2, sums)?
        && go_on(alloc, case, &history, &mut shards, most, most, sums)?
        && go_on(alloc, case, &history, &mut shards, groups, most, sums)?;
    sums.add_groups(groups);
    Ok(agree)
}

/// Lets the shards take in the groups up to one, and prunes them to another, and says whether they agree before and
/// after that.
fn go_on(
    alloc: Global,
    case: Case,
    history: &History,
    shards: &mut Shards,
    to: usize,
    floor: usize,
    sums: &mut Sums,
) -> Result<bool, NoMemory>
    requires { TellGroups history.now.window shards.old.taken shards.old.floor shards.old.items.items }
    ensures { OnOk result (TellGroups history.now.window shards.new.taken shards.new.floor shards.new.items.items) }
{
    shards.take_in(&history.window, to)?;
    if !compare_each(alloc, case, history, shards, sums)? {
        return Ok(false);
    }
    shards.prune(&history.window, floor);
    compare_each(alloc, case, history, shards, sums)
}

/// Whether the shards agree with the snapshots at each timestamp above their floor.
fn compare_each(
    alloc: Global,
    case: Case,
    history: &History,
    shards: &Shards,
    sums: &mut Sums,
) -> Result<bool, NoMemory>
    requires { TellGroups history.now.window shards.now.taken shards.now.floor shards.now.items.items }
{
    for group in shards.floor..shards.taken {
        let at = history.window.stamp_after(group + 1);
        let (Some(before), Some(after)) = (history.graphs.get(group), history.graphs.get(group + 1))
        else {
            return Ok(false);
        };
        if !compare_at(alloc, case, &shards.items, at, before, after, sums)? {
            return Ok(false);
        }
    }
    Ok(true)
}

/// Whether the shards at a timestamp have what the snapshots before and after it have, at each vertex.
fn compare_at(
    alloc: Global,
    case: Case,
    shards: &[Shard],
    at: Stamp,
    before: &Snapshot,
    after: &Snapshot,
    sums: &mut Sums,
) -> Result<bool, NoMemory>
    requires { CanBeViewed shards.now at }
{
    let mut told = OwnedView::new(shards, at);
    let mut plain = TwoSnapshots::new(before, after);
    sums.add_view();
    for place in 0..case.vertices {
        let v = VertexId(place);
        let near = fetch(alloc, &mut plain, v)?;
        let Some(count) = agree(&near, &fetch(alloc, &mut told, v)?) else {
            return Ok(false);
        };
        sums.add_vertex(count);
        let few = fetch_few(alloc, &mut plain, v)?;
        if agree(&few, &fetch_few(alloc, &mut told, v)?).is_none() {
            return Ok(false);
        }
    }
    Ok(true)
}

/// What a vertex has in a view. `None` where it is held.
fn fetch<V: GraphView>(alloc: Global, view: &mut V, v: VertexId) -> Result<Option<Pair>, NoMemory> {
    match view.fetch(alloc, v) {
        Ok(pair) => Ok(Some(pair)),
        Err(FetchStop::NoMemory) => Err(NoMemory),
        Err(FetchStop::Held(_)) => Ok(None),
    }
}

/// The same with those of its neighbours alone that are among three vertices.
fn fetch_few<V: GraphView>(
    alloc: Global,
    view: &mut V,
    v: VertexId,
) -> Result<Option<Pair>, NoMemory> {
    let half = v.0 / 2;
    let among = [VertexId(0), VertexId(half + 1), VertexId(half + 3)];
    match view.fetch_among(alloc, v, &among) {
        Ok(pair) => Ok(Some(pair)),
        Err(FetchStop::NoMemory) => Err(NoMemory),
        Err(FetchStop::Held(_)) => Ok(None),
    }
}

/// How many neighbours two pairs have, where they are the same.
fn agree(pair: &Option<Pair>, other: &Option<Pair>) -> Option<usize> {
    let (Some(pair), Some(other)) = (pair, other) else {
        return None;
    };
    let same = pair.before == other.before
        && pair.after == other.after
        && are_same(pair.near.as_slice(), other.near.as_slice());
    if same { Some(pair.near.len()) } else { None }
}

fn are_same(near: &[Near], others: &[Near]) -> bool {
    near == others
}
