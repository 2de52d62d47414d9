ghost use Rattle.std.specs.Prelude.{◌≡◌, ◌<◌, ◌+◌, ℕ, IfOk, OnOk, length};
ghost use Rattle.cond_eval.specs.meaning.Patterns.{pattern_of};
ghost use Rattle.delta_task.specs.calls.Deltas.{IsDelta};
ghost use Rattle.graph_types.specs.meaning.Graph.{Graph};
ghost use Rattle.group_window.specs.meaning.Windows.{graph_of};
ghost use Rattle.shard_state.specs.calls.Sharing.{TellGroups};
ghost use Rattle.window_miner.specs.calls.Mining.{CanMine, FollowsShards, IsMined};

use crate::pass::{AtGate, Pass};
use delta_task::{Delta, DeltaStop, delta_of};
use filter_polarity::Program;
use graph_types::{Gate, NoMemory, Point};
use group_window::Window;
use shard_state::sharing::{prune_all, take_in};
use shard_state::{OwnedView, Shard};
use std::alloc::Global;
use std::sync::Wait;

/// What was mined of a window: a delta for each of its groups, in their order, and the shards, which took in all of
/// them.
#[derive(Drop)]
pub struct Mined {
    pub shards: Vec<Shard>,
    pub deltas: Vec<Delta>,
}

/// Mines the groups of a window, one after another. Of what one takes away and brings at most `most` pieces are listed.
/// A group that is still open is left out. Out of memory takes the shards along.
///
/// Once the shards have taken in a group the gate is passed at its `Stamped` and `Begun`, and once it is mined at its
/// `Finished`. All is done by the thread that calls; `workers` changes nothing.
pub fn mine_window<R: Wait, G: Gate>(
    rt: &R,
    alloc: Global,
    shards: Vec<Shard>,
    window: &Window,
    program: &Program,
    _workers: u32,
    most: u32,
    gate: &G,
) -> Result<Mined, NoMemory>
    requires can { CanMine window.now shards.items }
    ensures { (g : Graph) → FollowsShards window.now shards.items g → IfOk result (IsMined (pattern_of program.now) most window.now g) }
{
    mine_groups(&AtGate { rt, gate }, alloc, shards, window, program, most)
}

/// The same by the thread that calls, which passes each point.
///
/// A group costs what it changed in the shards, and the search from it. The prune at the end costs what changed since
/// the last one.
pub fn mine_groups<P: Pass>(
    pass: &P,
    alloc: Global,
    mut shards: Vec<Shard>,
    window: &Window,
    program: &Program,
    most: u32,
) -> Result<Mined, NoMemory>
    requires can { CanMine window.now shards.items }
    ensures { (g : Graph) → FollowsShards window.now shards.items g → IfOk result (IsMined (pattern_of program.now) most window.now g) }
{
    window.sound();
    let mut deltas = Vec::with_capacity(alloc, window.len())?;
    for group in 0..window.len() {
        take_in(&mut shards, window, group)?;
        let at = window.stamp_after(group + 1);
        pass.pass(Point::Stamped(at));
        pass.pass(Point::Begun(at));
        let delta = mine_group(alloc, &shards, window, group, program, most)?;
        pass.pass(Point::Finished(at));
        deltas.push(delta)?;
    }
    prune_all(&mut shards, window.stamp_after(window.len()));
    Ok(Mined { shards, deltas })
}

/// What a group takes away and brings, which the shards took in last. Groups are counted from 0.
fn mine_group(
    alloc: Global,
    shards: &[Shard],
    window: &Window,
    group: usize,
    program: &Program,
    most: u32,
) -> Result<Delta, NoMemory>
    requires within { group < length window.now.later }
    requires told { TellGroups window.now (group + 1) group shards.now }
    ensures { IfOk result (IsDelta (pattern_of program.now) (graph_of window.now group) (graph_of window.now (group + 1)) most) }
{
    window.sound();
    let mut view = OwnedView::new(shards, window.stamp_after(group + 1));
    match delta_of(alloc, program, window.net(group), &mut view, most) {
        Ok(delta) => Ok(delta),
        Err(DeltaStop::NoMemory) => Err(NoMemory),
        Err(DeltaStop::Held(_)) => unreachable!(),
    }
}
