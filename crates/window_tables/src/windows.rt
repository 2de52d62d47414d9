ghost use Rattle.std.specs.Prelude.{IsTrue, OnOk};
ghost use Rattle.graph_types.specs.meaning.Graph.{Graph};
ghost use Rattle.group_window.specs.meaning.Windows.{HasRoom, StandsOn};

use crate::case::{CaseFault, field, shards};
use crate::graphs::read_update;
use crate::showing::show_difference;
use graph_types::{Snapshot, Stamp};
use group_window::Window;
use line_fields::Names;
use std::alloc::Global;
use std::fmt::Write;
use update_rules::StepFault;

/// `window SHARDS / STEP / STEP ..`: takes a new window through the steps `begin`, `push UPDATE`, `end` and `drop`. Each
/// is told with the number of groups after it, and of the updates of the group that is open. Then each group is told.
/// A `drop` ends the steps, since it leaves the graph as the group made it.
pub fn window(
    alloc: Global,
    names: &mut Names,
    graph: &mut Snapshot,
    text: &str,
    answer: &mut String,
) -> Result<(), CaseFault> {
    let Some((word, steps)) = text.split_once(" / ") else {
        return Err(CaseFault::BadCase);
    };
    let mut window = Window::new(alloc, Stamp(0), shards(word)?);
    for step in steps.split(" / ") {
        if step == "drop" {
            give_up(&mut window, answer)?;
            break;
        }
        take_step(alloc, &mut window, names, graph, step, answer)?;
        show_counts(&window, answer)?;
    }
    show_groups(&window, answer)
}

fn take_step(
    alloc: Global,
    window: &mut Window,
    names: &mut Names,
    graph: &mut Snapshot,
    step: &str,
    answer: &mut String,
) -> Result<(), CaseFault>
    requires { StandsOn window.old graph.old }
    ensures { OnOk result (StandsOn window.new graph.new) }
{
    let (verb, text) = field(step);
    match verb {
        "begin" => begin(window, answer),
        "push" => push(alloc, window, names, graph, text, answer),
        "end" => end(window, graph, answer),
        _ => Err(CaseFault::BadCase),
    }
}

fn begin(window: &mut Window, answer: &mut String) -> Result<(), CaseFault>
    ensures { OnOk result ((g : Graph) → StandsOn window.old g → StandsOn window.new g) }
{
    if window.open_len().is_some() || window.len() >= 4096 {
        return Err(CaseFault::BadCase);
    }
    window.begin_group();
    answer.push_str("begun")?;
    Ok(())
}

fn push(
    alloc: Global,
    window: &mut Window,
    names: &mut Names,
    graph: &mut Snapshot,
    text: &str,
    answer: &mut String,
) -> Result<(), CaseFault>
    requires { StandsOn window.old graph.old }
    ensures { OnOk result (StandsOn window.new graph.new) }
{
    let update = read_update(alloc, names, text)?;
    if !has_room(window) {
        return Err(CaseFault::BadCase);
    }
    match window.push(graph, &update) {
        Ok(()) => answer.push_str("made")?,
        Err(StepFault::Refused(why)) => write!(answer, "{why:?}")?,
        Err(StepFault::NoMemory) => return Err(CaseFault::NoMemory),
    }
    Ok(())
}

fn has_room(window: &Window) -> bool
    ensures { IsTrue result → HasRoom window.now window.now.current }
{
    match window.open_len() {
        Some(len) => len < 1024,
        None => window.len() < 4096,
    }
}

fn end(window: &mut Window, graph: &Snapshot, answer: &mut String) -> Result<(), CaseFault>
    requires { StandsOn window.old graph.now }
    ensures { OnOk result (StandsOn window.new graph.now) }
{
    if window.open_len().is_none() {
        return Err(CaseFault::BadCase);
    }
    window.end_group(graph)?;
    answer.push_str("ended")?;
    Ok(())
}

fn give_up(window: &mut Window, answer: &mut String) -> Result<(), CaseFault> {
    if window.open_len().is_none() {
        return Err(CaseFault::BadCase);
    }
    window.drop_group();
    answer.push_str("dropped")?;
    show_counts(window, answer)
}

/// The number of groups, and after a `+` the number of updates of the open group.
fn show_counts(window: &Window, answer: &mut String) -> Result<(), CaseFault> {
    write!(answer, " {}", window.len())?;
    if let Some(len) = window.open_len() {
        write!(answer, "+{len}")?;
    }
    answer.push_str(", ")?;
    Ok(())
}

fn show_groups(window: &Window, answer: &mut String) -> Result<(), CaseFault> {
    write!(answer, "groups {}", window.len())?;
    for i in 0..window.len() {
        answer.push_str("; group of ")?;
        show_difference(window.net(i), window.parts_of(i), answer)?;
    }
    Ok(())
}
