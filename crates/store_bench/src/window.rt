//! Windows of updates, each a group of its own.
ghost use Rattle.std.specs.Prelude.{◌+◌, ◌-◌, ◌≤◌, ◌^◌, ℕ, IfOk, OnOk};
ghost use Rattle.graph_types.specs.meaning.Graph.{Graph};
ghost use Rattle.group_window.specs.meaning.Windows.{CanPush};
ghost use Rattle.store_bench.specs.calls.Filling.{IsFilled};

use crate::tally::Tally;
use bench_streams::Stream;
use graph_types::{Snapshot, Stamp, Update};
use group_window::Window;
use std::alloc::{AllocError, Global};
use update_rules::StepFault;

/// How many shards there are.
pub const SHARDS: u32 = 8;

/// The window of the updates with these numbers, which are made in the graph where it accepts them.
pub fn fill(
    alloc: Global,
    graph: &mut Snapshot,
    at: Stamp,
    stream: &Stream,
    from: u64,
    to: u64,
    tally: &mut Tally,
) -> Result<Window, AllocError>
    requires early { at ≤ 10 ^ 19 }
    requires forward { from ≤ to }
    requires few { to ≤ from + 256 }
    ensures { IfOk result (λ window. IsFilled window at 8 (to - from) graph.old graph.new) }
{
    graph.simple();
    let mut window = Window::new(alloc, at, SHARDS);
    for number in from..to {
        push(&mut window, graph, &stream.update(number), tally)?;
    }
    Ok(window)
}

fn push(
    window: &mut Window,
    graph: &mut Snapshot,
    update: &Update,
    tally: &mut Tally,
) -> Result<(), AllocError>
    requires { CanPush window.old graph.old }
    ensures { (at count most : ℕ) (before : Graph) → IsFilled window.old at count most before graph.old → OnOk result (IsFilled window.new at count (most + 1) before graph.new) }
{
    match window.push(graph, update) {
        Ok(()) => tally.accept(),
        Err(StepFault::Refused(_)) => tally.refuse(),
        Err(StepFault::NoMemory) => return Err(AllocError),
    }
    graph.simple();
    Ok(())
}
