ghost use Rattle.std.specs.Prelude.{◌≡◌, ◌≤◌, ℕ, false, eqb, [], ◌∷◌, ◌++◌, unwrap_or, IsOk, IfOk, OnOk};
ghost use Rattle.std.specs.BTreeMap.{get};
ghost use Rattle.std.specs.Ordering.{nat_cmp};
ghost use Rattle.mining_model.specs.meaning.Step.{graph_after, step as graph_step};
ghost use Rattle.update_rules.specs.calls.Sharing.{AreShared, TakesIn};
ghost use Rattle.update_rules.specs.meaning.Parts.{parts_between, parts_of, vertex_of};

use crate::writes::changes_by;
use crate::{Change, ChangeList};
use graph_types::{List, NoMemory, Snapshot, Update, VertexId};
use std::alloc::Global;
use std::collections::BTreeMap;

/// The changes at the vertices of one shard.
#[derive(Debug, Drop)]
pub struct Part {
    pub shard: u32,
    pub changes: ChangeList,
}

/// Parts, in an order that the call says.
pub type PartList = List<Part>;

type Shards = BTreeMap<u32, ChangeList>;

/// What differs between the graph and the graph after the update, which it accepts: the changes at the
/// vertices of each shard that has some, where vertex v belongs to shard `v mod shards`. Parts ascend by
/// shard, and changes by vertex; of a vertex its label comes first, and then its edges by where they lead.
/// Takes a few look-ups, and to remove a vertex a few for each of its edges.
pub fn parts(
    alloc: Global,
    graph: &Snapshot,
    update: &Update,
    shards: u32,
) -> Result<PartList, NoMemory>
    requires accepted { IsOk (graph_step graph.now update.now) }
    requires some_shard { 1 ≤ shards }
    ensures { IfOk result (λ parts. parts ≡ parts_between graph.now (graph_after graph.now update.now) shards) }
{
    let changes = changes_by(alloc, graph, update)?;
    parts_of_changes(alloc, &changes, shards)
}

/// The changes of each shard that has some. Takes a look-up among the shards that have changes for each
/// change. For the two of an edge it takes constant time, and memory for the list of the parts alone.
pub fn parts_of_changes(
    alloc: Global,
    changes: &[Change],
    shards: u32,
) -> Result<PartList, NoMemory>
    requires { 1 ≤ shards }
    ensures { IfOk result (λ parts. parts ≡ parts_of shards changes.now) }
{
    match changes {
        [first, second] => parts_of_two(alloc, first, second, shards),
        _ => parts_by_shard(alloc, changes, shards),
    }
}

/// The two changes that an edge brings, which most updates come to.
fn parts_of_two(
    alloc: Global,
    first: &Change,
    second: &Change,
    shards: u32,
) -> Result<PartList, NoMemory>
    requires { 1 ≤ shards }
    ensures { IfOk result (λ parts. parts ≡ parts_of shards (first.now ∷ second.now ∷ [])) }
{
    let at = vertex(first).0 % shards;
    let other = vertex(second).0 % shards;
    if at == other {
        return one_part(alloc, at, first, second);
    }
    if at < other {
        return two_parts(alloc, at, first, other, second);
    }
    two_parts(alloc, other, second, at, first)
}

fn one_part(
    alloc: Global,
    shard: u32,
    first: &Change,
    second: &Change,
) -> Result<PartList, NoMemory>
    ensures { IfOk result (λ parts. parts ≡ record { shard = shard; changes = first.now ∷ second.now ∷ [] } ∷ []) }
{
    let mut parts = PartList::new(alloc);
    let changes = ChangeList::of_two(alloc, first, second);
    parts.push(Part { shard, changes })?;
    Ok(parts)
}

fn two_parts(
    alloc: Global,
    at: u32,
    first: &Change,
    other: u32,
    second: &Change,
) -> Result<PartList, NoMemory>
    ensures { IfOk result (λ parts. parts ≡ record { shard = at; changes = first.now ∷ [] } ∷ record { shard = other; changes = second.now ∷ [] } ∷ []) }
{
    let mut parts = PartList::new(alloc);
    let changes = ChangeList::of_one(alloc, first);
    parts.push(Part { shard: at, changes })?;
    let changes = ChangeList::of_one(alloc, second);
    parts.push(Part {
        shard: other,
        changes,
    })?;
    Ok(parts)
}

fn parts_by_shard(alloc: Global, changes: &[Change], shards: u32) -> Result<PartList, NoMemory>
    requires { 1 ≤ shards }
    ensures { IfOk result (λ parts. parts ≡ parts_of shards changes.now) }
{
    let by_shard = shared(alloc, changes, shards)?;
    let mut parts = PartList::new(alloc);
    for (shard, changes) in by_shard {
        parts.push(Part { shard, changes })?;
    }
    Ok(parts)
}

fn shared(alloc: Global, changes: &[Change], shards: u32) -> Result<Shards, NoMemory>
    requires { 1 ≤ shards }
    ensures { IfOk result (λ by_shard. AreShared shards by_shard changes.now) }
{
    let mut by_shard = Shards::new(alloc);
    for change in changes {
        let shard = vertex(change).0 % shards;
        take_in(alloc, &mut by_shard, shard, change)?;
    }
    Ok(by_shard)
}

fn take_in(
    alloc: Global,
    by_shard: &mut Shards,
    shard: u32,
    change: &Change,
) -> Result<(), NoMemory>
    ensures { OnOk result (TakesIn by_shard.old by_shard.new shard change.now) }
{
    let mut changes = changes_at(alloc, by_shard, shard);
    changes.push(*change)?;
    by_shard.insert(shard, changes)?;
    Ok(())
}

fn changes_at(alloc: Global, by_shard: &mut Shards, shard: u32) -> ChangeList
    ensures taken { result ≡ unwrap_or (get nat_cmp by_shard.old shard) [] }
    ensures others { (s : ℕ) → eqb s shard ≡ false → get nat_cmp by_shard.new s ≡ get nat_cmp by_shard.old s }
{
    match by_shard.remove(&shard) {
        Some(changes) => changes,
        None => ChangeList::new(alloc),
    }
}

fn vertex(change: &Change) -> VertexId
    ensures { result ≡ vertex_of change.now }
{
    match *change {
        Change::Label { vertex, .. } => vertex,
        Change::Near { vertex, .. } => vertex,
    }
}
