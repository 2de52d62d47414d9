//! Windows of groups, and the plain graphs between them.
ghost use Rattle.std.specs.Prelude.{◌≡◌, ◌≤◌, IfOk, IsTrue, OnOk};
ghost use Rattle.group_window.specs.meaning.Windows.{HasRoom};
ghost use Rattle.view_tables.specs.calls.Making.{IsBegun, IsClosed, IsOpen};

use crate::case::Case;
use crate::draws::Draws;
use crate::graphs::{build, draw_graph, draw_update};
use graph_types::{List, NoMemory, Snapshot, Stamp, Update};
use group_window::Window;
use std::alloc::Global;
use update_rules::StepFault;

/// Groups, and the plain graphs before the first and after each.
#[derive(Drop)]
pub struct History {
    pub window: Window,
    /// Each is built anew, from the updates up to there.
    pub graphs: List<Snapshot>,
    graph: Snapshot,
    updates: List<Update>,
}

/// A history whose first group is empty, and whose second makes a graph.
pub fn make_history(
    alloc: Global,
    draws: &mut Draws,
    case: Case,
    has_hub: bool,
) -> Result<History, NoMemory>
    requires { 1 ≤ case.shards }
    ensures begun { IfOk result (λ history. IsBegun history.window) }
    ensures shards { IfOk result (λ history. history.window.shards ≡ case.shards) }
{
    let mut history = begin(alloc, case.shards)?;
    let drawn = draw_graph(alloc, draws, case, has_hub)?;
    add_drawn(alloc, &mut history, &drawn)?;
    for _ in 0..case.groups {
        add_group(alloc, &mut history, draws, case)?;
    }
    Ok(history)
}

/// An empty group on the empty graph.
fn begin(alloc: Global, shards: u32) -> Result<History, NoMemory>
    requires { 1 ≤ shards }
    ensures closed { IfOk result (λ history. IsClosed history.window history.graph) }
    ensures shards { IfOk result (λ history. history.window.shards ≡ shards) }
{
    let mut window = Window::new(alloc, Stamp(1000), shards);
    let graph = Snapshot::new(alloc);
    window.begin_group();
    window.end_group(&graph)?;
    let mut graphs = List::new(alloc);
    graphs.push(build(alloc, &[])?)?;
    graphs.push(build(alloc, &[])?)?;
    Ok(History {
        window,
        graphs,
        graph,
        updates: List::new(alloc),
    })
}

/// Adds a group of these updates, without those that are refused.
fn add_drawn(alloc: Global, history: &mut History, drawn: &[Update]) -> Result<(), NoMemory>
    requires { IsClosed history.old.window history.old.graph }
    ensures closed { OnOk result (IsClosed history.new.window history.new.graph) }
    ensures shards { history.new.window.shards ≡ history.old.window.shards }
{
    if history.window.len() >= 4096 {
        return Ok(());
    }
    history.window.begin_group();
    for update in drawn {
        add(history, *update)?;
    }
    end(alloc, history)
}

/// Adds a group of updates, each drawn for the graph that it meets.
fn add_group(
    alloc: Global,
    history: &mut History,
    draws: &mut Draws,
    case: Case,
) -> Result<(), NoMemory>
    requires { IsClosed history.old.window history.old.graph }
    ensures closed { OnOk result (IsClosed history.new.window history.new.graph) }
    ensures shards { history.new.window.shards ≡ history.old.window.shards }
{
    if history.window.len() >= 4096 {
        return Ok(());
    }
    history.window.begin_group();
    for _ in 0..draws.below(case.updates.saturating_add(1)) {
        let update = draw_update(draws, &history.graph, case);
        add(history, update)?;
    }
    end(alloc, history)
}

/// Adds an update to the open group, where the graph accepts it and the group has room.
fn add(history: &mut History, update: Update) -> Result<(), NoMemory>
    requires { IsOpen history.old.window history.old.graph }
    ensures opened { IsOpen history.new.window history.new.graph }
    ensures shards { history.new.window.shards ≡ history.old.window.shards }
{
    if !has_room(&history.window) {
        return Ok(());
    }
    match history.window.push(&mut history.graph, &update) {
        Ok(()) => {}
        Err(StepFault::Refused(_)) => {}
        Err(StepFault::NoMemory) => return Err(NoMemory),
    }
    history.updates.push(update)?;
    Ok(())
}

fn has_room(window: &Window) -> bool
    ensures { IsTrue result → HasRoom window.now window.now.current }
{
    match window.open_len() {
        Some(len) => len < 1024,
        None => window.len() < 4096,
    }
}

/// Ends the open group.
fn end(alloc: Global, history: &mut History) -> Result<(), NoMemory>
    requires { IsOpen history.old.window history.old.graph }
    ensures closed { OnOk result (IsClosed history.new.window history.new.graph) }
    ensures shards { history.new.window.shards ≡ history.old.window.shards }
{
    history.window.end_group(&history.graph)?;
    let graph = build(alloc, &history.updates)?;
    history.graphs.push(graph)?;
    Ok(())
}
