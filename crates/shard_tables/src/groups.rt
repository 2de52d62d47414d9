ghost use Rattle.std.specs.Prelude.{◌≡◌, ◌≤◌, IsTrue, IfOk, OnOk};
ghost use Rattle.group_window.specs.meaning.Windows.{HasRoom};
ghost use Rattle.shard_tables.specs.calls.Building.{IsBuilding, IsFromNothing};

use crate::case::CaseFault;
use graph_types::{Snapshot, Stamp, Update};
use group_window::Window;
use line_fields::Names;
use std::alloc::Global;
use update_reader::{Item, UpdateFault, read_line};
use update_rules::StepFault;

/// `STEP / STEP ..`: the groups that follow one another from nothing on, for so many shards. A step is an update, which
/// is a group of its own where none is open, or `begin` or `end` of a group. An update that the graph refuses is no
/// case.
pub fn groups(
    alloc: Global,
    names: &mut Names,
    shards: u32,
    text: &str,
) -> Result<Window, CaseFault>
    requires { 1 ≤ shards }
    ensures from_nothing { IfOk result (λ window. IsFromNothing window) }
    ensures shards { IfOk result (λ window. window.shards ≡ shards) }
{
    let mut window = Window::new(alloc, Stamp(0), shards);
    let mut graph = Snapshot::new(alloc);
    graph.simple();
    for step in text.split(" / ") {
        take_step(alloc, names, &mut window, &mut graph, step)?;
    }
    Ok(window)
}

fn take_step(
    alloc: Global,
    names: &mut Names,
    window: &mut Window,
    graph: &mut Snapshot,
    step: &str,
) -> Result<(), CaseFault>
    requires { IsBuilding window.old graph.old }
    ensures building { OnOk result (IsBuilding window.new graph.new) }
    ensures shards { OnOk result (window.new.shards ≡ window.old.shards) }
{
    match step {
        "begin" => begin(window, graph),
        "end" => end(window, graph),
        _ => push(window, graph, &read_update(alloc, names, step)?),
    }
}

fn begin(window: &mut Window, graph: &Snapshot) -> Result<(), CaseFault>
    requires { IsBuilding window.old graph.now }
    ensures building { OnOk result (IsBuilding window.new graph.now) }
    ensures shards { OnOk result (window.new.shards ≡ window.old.shards) }
{
    if window.open_len().is_some() || window.len() >= 4096 {
        return Err(CaseFault::BadCase);
    }
    window.begin_group();
    Ok(())
}

fn end(window: &mut Window, graph: &Snapshot) -> Result<(), CaseFault>
    requires { IsBuilding window.old graph.now }
    ensures building { OnOk result (IsBuilding window.new graph.now) }
    ensures shards { OnOk result (window.new.shards ≡ window.old.shards) }
{
    if window.open_len().is_none() {
        return Err(CaseFault::BadCase);
    }
    graph.simple();
    window.end_group(graph)?;
    Ok(())
}

fn push(window: &mut Window, graph: &mut Snapshot, update: &Update) -> Result<(), CaseFault>
    requires { IsBuilding window.old graph.old }
    ensures building { OnOk result (IsBuilding window.new graph.new) }
    ensures shards { OnOk result (window.new.shards ≡ window.old.shards) }
{
    if !has_room(window) {
        return Err(CaseFault::BadCase);
    }
    match window.push(graph, update) {
        Ok(()) => {
            graph.simple();
            Ok(())
        }
        Err(StepFault::Refused(_)) => Err(CaseFault::BadCase),
        Err(StepFault::NoMemory) => Err(CaseFault::NoMemory),
    }
}

fn has_room(window: &Window) -> bool
    ensures { IsTrue result → HasRoom window.now window.now.current }
{
    match window.open_len() {
        Some(len) => len < 1024,
        None => window.len() < 4096,
    }
}

fn read_update(alloc: Global, names: &mut Names, text: &str) -> Result<Update, CaseFault> {
    match read_line(alloc, text.as_bytes(), names) {
        Ok(Item::Update(update)) => Ok(update),
        Err(UpdateFault::NoMemory) => Err(CaseFault::NoMemory),
        _ => Err(CaseFault::BadCase),
    }
}
