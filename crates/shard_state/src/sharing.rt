//! Shards that have one owner, through the groups of one window after another.
ghost use Rattle.std.specs.Prelude.{◌≡◌, ◌≤◌, ◌<◌, ◌+◌, ℕ, List, IfOk, OnOk, length};
ghost use Rattle.std.specs.List.{AllByRecursion};
ghost use Rattle.graph_types.specs.meaning.Graph.{Graph, empty_graph};
ghost use Rattle.shard_state.specs.calls.Sharing.{KeepGraph, TellGroups, TellUpTo, all_pruned, empty_shards};
ghost use Rattle.shard_state.specs.calls.Viewing.{CanBeViewed};
ghost use Rattle.shard_state.specs.meaning.Shards.{ShardValue};
ghost use Rattle.shard_state.specs.meaning.Telling.{AreSimple, Graphs, graph_of, last_of};

use crate::{Shard, apply_parts};
use graph_types::{NoMemory, Stamp};
use group_window::Window;
use std::alloc::Global;

/// So many shards, without a vertex.
pub fn make_shards(alloc: Global, count: u32) -> Result<Vec<Shard>, NoMemory>
    ensures empty { IfOk result (λ shards. shards.items ≡ empty_shards count) }
    ensures keep { (at : ℕ) → 1 ≤ count → IfOk result (λ shards. KeepGraph shards.items at empty_graph) }
{
    let mut shards = Vec::new(alloc);
    for number in 0..count {
        shards.push(Shard::empty(alloc, number, count))?;
    }
    Ok(shards)
}

/// Lets the shards take in what a group of a window changed, each its own part. Groups are counted from 0. Out of memory
/// may leave some of the shards with their part, and others without.
pub fn take_in(shards: &mut [Shard], window: &Window, group: usize) -> Result<(), NoMemory>
    requires within { group < length window.now.later }
    requires told { TellGroups window.now group group shards.old }
    ensures { (floor : ℕ) → TellGroups window.now group floor shards.old → OnOk result (TellGroups window.now (group + 1) floor shards.new) }
{
    window.sound();
    let at = window.stamp_after(group + 1);
    apply_parts(shards, window.parts_of(group), at)
}

/// Prunes each shard to a timestamp. It takes no memory.
pub fn prune_all(shards: &mut [Shard], stamp: Stamp)
    ensures { shards.new ≡ all_pruned stamp shards.old }
{
    for shard in shards.iter_mut() {
        shard.prune(stamp);
    }
}

/// The law of shards through graphs that follow one another. Where they keep the first graph they tell all that follow
/// it. After each step that they took in above their floor they can be viewed. Pruned, they go on telling. And after
/// the last step they keep the last graph.
pub fn telling_up_to()
    ensures begins { (graphs : Graphs) (shards : List ShardValue) → KeepGraph shards graphs.first graphs.base → AreSimple graphs →
        TellUpTo graphs 0 0 shards }
    ensures lower { (graphs : Graphs) (taken floor f : ℕ) (shards : List ShardValue) → TellUpTo graphs taken floor shards →
        floor ≤ f → f ≤ taken → TellUpTo graphs taken f shards }
    ensures viewed { (graphs : Graphs) (taken floor : ℕ) (shards : List ShardValue) → TellUpTo graphs taken floor shards →
        (step : ℕ) → floor ≤ step → step < taken → CanBeViewed shards (graphs.first + (step + 1)) }
    ensures pruned { (graphs : Graphs) (taken floor f : ℕ) (shards : List ShardValue) → TellUpTo graphs taken floor shards →
        floor ≤ f → f ≤ taken → TellUpTo graphs taken f (all_pruned (graphs.first + f) shards) }
    ensures ends { (graphs : Graphs) (floor : ℕ) (shards : List ShardValue) → TellUpTo graphs (length graphs.later) floor shards →
        KeepGraph shards (last_of graphs) (graph_of graphs (last_of graphs)) }
{}

/// The law of shards that keep a graph: they keep it where they are pruned to its timestamp, which is the floor of each
/// then.
pub fn keeping_pruned()
    ensures keep { (shards : List ShardValue) (at : ℕ) (g : Graph) → KeepGraph shards at g → KeepGraph (all_pruned at shards) at g }
    ensures floors { (shards : List ShardValue) (at : ℕ) (g : Graph) → KeepGraph shards at g →
        AllByRecursion (λ shard. shard.floor ≡ at) (all_pruned at shards) }
{}
