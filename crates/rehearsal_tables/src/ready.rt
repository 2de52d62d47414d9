//! Shards, and windows that go on from the graph that they keep.
ghost use Rattle.std.specs.Prelude.{◌≡◌, ◌≤◌, ◌^◌, ℕ, None, IfOk, OnOk, IsSome, IsTrue};
ghost use Rattle.graph_types.specs.meaning.Graph.{Graph};
ghost use Rattle.group_window.specs.meaning.Windows.{HasRoom, StandsOn};
ghost use Rattle.rehearsal_tables.specs.calls.Leading.{Leads};
ghost use Rattle.window_miner.specs.calls.Mining.{CanMine};

use crate::job::{Group, Job};
use graph_types::{FreeGate, NoMemory, Snapshot, Stamp, Update};
use group_window::Window;
use shard_state::Shard;
use shard_state::sharing::make_shards;
use std::alloc::Global;
use std::sync::Wait;
use update_rules::StepFault;
use window_miner::mine_window;

/// A window, and shards that took in all groups before it.
#[derive(Drop)]
pub struct Ready {
    pub shards: Vec<Shard>,
    pub window: Window,
}

/// Makes all anew, without the updates that the graph refuses.
pub fn prepare<R: Wait>(rt: &R, alloc: Global, job: &Job) -> Result<Ready, NoMemory>
    ensures { IfOk result (λ ready. CanMine ready.window ready.shards.items) }
{
    let count = job.shards.max(1);
    let mut graph = Snapshot::new(alloc);
    let shards = make_shards(alloc, count)?;
    let earlier = window_of(alloc, &mut graph, &job.earlier, Stamp(0), count)?;
    earlier.sound();
    let mined = mine_window(rt, alloc, shards, &earlier, &job.program, 1, 0, &FreeGate)?;
    let at = earlier.stamp_after(earlier.len());
    let window = window_of(alloc, &mut graph, &job.groups, at, count)?;
    Ok(Ready {
        shards: mined.shards,
        window,
    })
}

/// A window of groups, by which it changes the graph.
fn window_of(
    alloc: Global,
    graph: &mut Snapshot,
    groups: &[Group],
    at: Stamp,
    count: u32,
) -> Result<Window, NoMemory>
    requires some { 1 ≤ count }
    requires early { at ≤ 10 ^ 19 }
    ensures leads { IfOk result (λ window. Leads at count graph.old window graph.new) }
    ensures closed { IfOk result (λ window. window.current ≡ None) }
{
    let mut window = Window::new(alloc, at, count);
    for group in groups {
        add_group(&mut window, graph, group)?;
    }
    Ok(window)
}

/// Adds a group, unless the window is full.
fn add_group(window: &mut Window, graph: &mut Snapshot, updates: &[Update]) -> Result<(), NoMemory>
    requires closed { window.old.current ≡ None }
    requires stands { StandsOn window.old graph.old }
    ensures leads { (at count : ℕ) (before : Graph) → Leads at count before window.old graph.old → OnOk result (Leads at count before window.new graph.new) }
    ensures closed { OnOk result (window.new.current ≡ None) }
    ensures stands { OnOk result (StandsOn window.new graph.new) }
{
    if window.len() >= 4096 {
        return Ok(());
    }
    window.begin_group();
    for update in updates {
        add(window, graph, update)?;
    }
    window.end_group(graph)?;
    Ok(())
}

/// Adds an update to the open group, where the graph accepts it and the group has room.
fn add(window: &mut Window, graph: &mut Snapshot, update: &Update) -> Result<(), NoMemory>
    requires opened { IsSome window.old.current }
    requires stands { StandsOn window.old graph.old }
    ensures leads { (at count : ℕ) (before : Graph) → Leads at count before window.old graph.old → Leads at count before window.new graph.new }
    ensures opened { IsSome window.new.current }
    ensures stands { StandsOn window.new graph.new }
{
    if !has_room(window) {
        return Ok(());
    }
    match window.push(graph, update) {
        Ok(()) => Ok(()),
        Err(StepFault::Refused(_)) => Ok(()),
        Err(StepFault::NoMemory) => Err(NoMemory),
    }
}

fn has_room(window: &Window) -> bool
    ensures { IsTrue result → HasRoom window.now window.now.current }
{
    match window.open_len() {
        Some(len) => len < 1024,
        None => window.len() < 4096,
    }
}
