//! Windows of groups, each drawn for the graph that it meets.
ghost use Rattle.std.specs.Prelude.{◌≡◌, ◌≤◌, ◌^◌, ℕ, IfOk, OnOk, IsTrue};
ghost use Rattle.graph_types.specs.meaning.Graph.{Graph};
ghost use Rattle.delta_tables.specs.calls.Filling.{GoesOn, IsClosed, IsOpen};

use crate::case::Case;
use crate::draws::Draws;
use crate::graphs::{draw_update, has_room};
use graph_types::{List, NoMemory, Snapshot, Stamp, Update};
use group_window::Window;
use std::alloc::Global;
use update_rules::StepFault;

/// The updates of a group.
pub type Group = List<Update>;

/// A window that goes on from a graph at a timestamp. Its first group is empty.
pub fn begin_window(
    alloc: Global,
    graph: &Snapshot,
    at: Stamp,
    count: u32,
) -> Result<Window, NoMemory>
    requires some { 1 ≤ count }
    requires early { at ≤ 10 ^ 19 }
    ensures goes_on { IfOk result (λ window. GoesOn window at count graph.now) }
    ensures closed { IfOk result (λ window. IsClosed window graph.now) }
{
    let mut window = Window::new(alloc, at, count);
    window.begin_group();
    window.end_group(graph)?;
    Ok(window)
}

/// Adds so many groups, and gives their updates.
pub fn fill_window(
    alloc: Global,
    window: &mut Window,
    graph: &mut Snapshot,
    draws: &mut Draws,
    case: Case,
    count: u32,
) -> Result<Vec<Group>, NoMemory>
    requires { IsClosed window.old graph.old }
    ensures goes_on { (at shards : ℕ) (before : Graph) → GoesOn window.old at shards before → OnOk result (GoesOn window.new at shards before) }
    ensures closed { OnOk result (IsClosed window.new graph.new) }
{
    let mut groups = Vec::new(alloc);
    for _ in 0..count {
        groups.push(add_group(alloc, window, graph, draws, case)?)?;
    }
    Ok(groups)
}

/// Adds a group, unless the window is full.
fn add_group(
    alloc: Global,
    window: &mut Window,
    graph: &mut Snapshot,
    draws: &mut Draws,
    case: Case,
) -> Result<Group, NoMemory>
    requires { IsClosed window.old graph.old }
    ensures goes_on { (at shards : ℕ) (before : Graph) → GoesOn window.old at shards before → OnOk result (GoesOn window.new at shards before) }
    ensures closed { OnOk result (IsClosed window.new graph.new) }
{
    let mut updates = Group::new(alloc);
    if window.len() >= 4096 {
        return Ok(updates);
    }
    window.begin_group();
    for _ in 0..=draws.below(case.updates) {
        let update = draw_update(draws, graph, case);
        add(window, graph, &update)?;
        updates.push(update)?;
    }
    window.end_group(graph)?;
    Ok(updates)
}

/// Adds an update to the open group, where the graph accepts it and the group has room.
fn add(window: &mut Window, graph: &mut Snapshot, update: &Update) -> Result<(), NoMemory>
    requires { IsOpen window.old graph.old }
    ensures goes_on { (at shards : ℕ) (before : Graph) → GoesOn window.old at shards before → GoesOn window.new at shards before }
    ensures opened { IsOpen window.new graph.new }
{
    if !has_room(window) {
        return Ok(());
    }
    match window.push(graph, update) {
        Ok(()) => Ok(()),
        Err(StepFault::Refused(_)) => Ok(()),
        Err(StepFault::NoMemory) => Err(NoMemory),
    }
}
