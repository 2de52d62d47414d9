//! Groups that are mined in windows over shards, beside the same groups between plain snapshots.
ghost use Rattle.std.specs.Prelude.{◌≡◌, ◌≤◌, ℕ, IfOk, IfSome};
ghost use Rattle.delta_tables.specs.calls.Keeping.{KeepsGraph};

use crate::case::{Case, read_case};
use crate::deltas::{are_same, delta};
use crate::draws::Draws;
use crate::filling::{Group, begin_window, fill_window};
use crate::graphs::{build, change_by};
use crate::outcome::{Change, Outcome, Sums};
use crate::programs::read;
use delta_task::Delta;
use filter_polarity::Program;
use graph_types::{FreeGate, List, NoMemory, Snapshot, Stamp, Update};
use line_fields::Names;
use shard_state::Shard;
use shard_state::sharing::make_shards;
use std::alloc::Global;
use std::sync::Wait;
use window_miner::mine_window;

/// How the groups of a graph are mined: in so many windows, each of so many groups after an empty one, over so many
/// shards.
#[derive(Clone, Copy)]
struct Plan {
    windows: u32,
    groups: u32,
    shards: u32,
}

/// What is mined of one graph: the graph that judges updates, all updates so far, and the shards that keep the graph.
#[derive(Drop)]
pub struct Store {
    graph: Snapshot,
    updates: List<Update>,
    shards: Vec<Shard>,
    at: Stamp,
}

/// What goes and comes by a group, and how many members its net change has.
#[derive(Drop)]
struct Step {
    delta: Delta,
    members: usize,
}

/// `WINDOWS GROUPS SHARDS / FIRST GRAPHS VERTICES EDGES LABELS UPDATES MOST: PROGRAM`: compares what is mined in windows
/// with the search between plain snapshots, on graphs that begin with nothing.
pub fn mine<R: Wait>(rt: &R, alloc: Global, text: &str) -> Result<String, NoMemory> {
    let Some((plan, line)) = text.split_once(" / ") else {
        return Ok(String::from_str(alloc, "no windows")?);
    };
    let Some((numbers, text)) = line.split_once(": ") else {
        return Ok(String::from_str(alloc, "no case")?);
    };
    let words: Vec<&str> = plan.split(' ').collect(alloc)?;
    let Some(plan) = read_plan(&words) else {
        return Ok(String::from_str(alloc, "no windows")?);
    };
    let words: Vec<&str> = numbers.split(' ').collect(alloc)?;
    let Some(case) = read_case(&words) else {
        return Ok(String::from_str(alloc, "no numbers")?);
    };
    let mut names = Names::new(alloc)?;
    match read(alloc, text, &mut names)? {
        Ok(program) => Ok(mine_all(rt, alloc, plan, case, &program)?.text(alloc)?),
        Err(_) => Ok(String::from_str(alloc, "no program")?),
    }
}

fn read_plan(words: &[&str]) -> Option<Plan> {
    let [windows, groups, shards] = words else {
        return None;
    };
    Some(Plan {
        windows: windows.parse::<u32>().ok()?,
        groups: groups.parse::<u32>().ok()?,
        shards: shards.parse::<u32>().ok()?,
    })
}

/// Compares the two on the graphs of a case, up to the first where they differ.
fn mine_all<R: Wait>(
    rt: &R,
    alloc: Global,
    plan: Plan,
    case: Case,
    program: &Program,
) -> Result<Outcome, NoMemory> {
    let mut sums = Sums::new();
    for graph in case.first..case.first.saturating_add(case.graphs) {
        if !mine_graph(rt, alloc, plan, case, program, graph, &mut sums)? {
            return Ok(Outcome::Difference(graph));
        }
    }
    Ok(Outcome::Agreement(sums))
}

/// Whether the two agree on the graph with a number, window by window.
fn mine_graph<R: Wait>(
    rt: &R,
    alloc: Global,
    plan: Plan,
    case: Case,
    program: &Program,
    graph: u32,
    sums: &mut Sums,
) -> Result<bool, NoMemory> {
    let mut draws = Draws::new(graph);
    let count = plan.shards.max(1);
    let mut store = begin(alloc, count)?;
    for _ in 0..plan.windows {
        match mine_next(
            rt, alloc, plan, case, program, count, store, &mut draws, sums,
        )? {
            Some(next) => store = next,
            None => return Ok(false),
        }
    }
    Ok(true)
}

/// Nothing, at timestamp 0.
fn begin(alloc: Global, count: u32) -> Result<Store, NoMemory>
    requires { 1 ≤ count }
    ensures { IfOk result (KeepsGraph count) }
{
    let shards = make_shards(alloc, count)?;
    Ok(Store {
        graph: Snapshot::new(alloc),
        updates: List::new(alloc),
        shards,
        at: Stamp(0),
    })
}

/// Mines the next window. `None` where the two differ, or after too many windows.
fn mine_next<R: Wait>(
    rt: &R,
    alloc: Global,
    plan: Plan,
    case: Case,
    program: &Program,
    count: u32,
    store: Store,
    draws: &mut Draws,
    sums: &mut Sums,
) -> Result<Option<Store>, NoMemory>
    requires some { 1 ≤ count }
    requires keeps { KeepsGraph count store }
    ensures { IfOk result (λ next. IfSome next (KeepsGraph count)) }
{
    let Store {
        mut graph,
        mut updates,
        shards,
        at,
    } = store;
    if at.0 > 1_000_000 {
        return Ok(None);
    }
    let mut window = begin_window(alloc, &graph, at, count)?;
    let groups = fill_window(alloc, &mut window, &mut graph, draws, case, plan.groups)?;
    let mined = mine_window(rt, alloc, shards, &window, program, 1, case.most, &FreeGate)?;
    let at = window.stamp_after(window.len());
    if !are_plain(
        alloc,
        case,
        program,
        &mut updates,
        &groups,
        &mined.deltas,
        sums,
    )? {
        return Ok(None);
    }
    Ok(Some(Store {
        graph,
        updates,
        shards: mined.shards,
        at,
    }))
}

/// Whether these deltas are those of an empty group and of some groups, after these updates, to which theirs are added.
fn are_plain(
    alloc: Global,
    case: Case,
    program: &Program,
    updates: &mut List<Update>,
    groups: &[Group],
    deltas: &[Delta],
    sums: &mut Sums,
) -> Result<bool, NoMemory> {
    let Some(first) = deltas.first() else {
        return Ok(false);
    };
    let step = plain_step(alloc, program, updates, &[], case.most)?;
    if deltas.len() != groups.len().saturating_add(1) || !are_same(&step.delta, first) {
        return Ok(false);
    }
    for (group, delta) in groups.iter().zip(deltas.iter().skip(1)) {
        let step = plain_step(alloc, program, updates, group, case.most)?;
        if !are_same(&step.delta, delta) {
            return Ok(false);
        }
        sums.add(change_of(&step));
        updates.extend_from_slice(group)?;
    }
    Ok(true)
}

/// What a group brings after some updates, by the search between two plain snapshots.
fn plain_step(
    alloc: Global,
    program: &Program,
    updates: &[Update],
    group: &[Update],
    most: u32,
) -> Result<Step, NoMemory> {
    let before = build(alloc, updates)?;
    let mut after = build(alloc, updates)?;
    let window = change_by(alloc, &mut after, group)?;
    let net = window.net(0);
    Ok(Step {
        delta: delta(alloc, program, net, &before, &after, most)?,
        members: net.vertices.len().saturating_add(net.edges.len()),
    })
}

fn change_of(step: &Step) -> Change {
    match &step.delta {
        Delta::Listed { rem, add } => Change {
            members: step.members,
            gone: rem.len(),
            come: add.len(),
            over: false,
        },
        Delta::Over => Change {
            members: step.members,
            gone: 0,
            come: 0,
            over: true,
        },
    }
}
