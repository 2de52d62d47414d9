//! Windows and schedules that are drawn: what each rehearsal tells beside what mining does.
use crate::case::{CaseFault, number};
use crate::draws::Draws;
use crate::job::{Group, Job};
use crate::rehearsing::{mined, rehearsed};
use crate::schedule::draw_schedule;
use crate::showing::{show_mined, show_pair};
use graph_types::{LabelId, List, NoMemory, Update, VertexId};
use rehearsal::Event;
use std::alloc::Global;
use std::fmt::Write;
use std::sync::Wait;
use window_miner::Mined;

/// How many vertices a graph has at the most.
const VERTICES: u32 = 6;

/// What the schedules come to in all.
#[derive(Clone, Copy, Default)]
struct Sums {
    schedules: usize,
    events: usize,
    /// How many orders of events there are, each window's counted on their own.
    orders: usize,
    differing: usize,
}

/// `made FIRST WINDOWS SCHEDULES DIGITS EARLIER GROUPS`: compares what rehearsals of windows tell with what mining does.
pub fn made<R: Wait>(
    rt: &R,
    alloc: Global,
    words: &str,
    job: &mut Job,
    answer: &mut String,
) -> Result<(), CaseFault> {
    let words: Vec<&str> = words.split(' ').collect(alloc)?;
    let [first, windows, schedules, digits, earlier, groups] = words.as_slice() else {
        return Err(CaseFault::BadCase);
    };
    let first = number(first)?;
    let mut sums = Sums::default();
    for window in first..first.saturating_add(number(windows)?) {
        let mut draws = Draws::new(window);
        job.earlier = draw_groups(alloc, &mut draws, number(earlier)?)?;
        job.groups = draw_groups(alloc, &mut draws, number(groups)?)?;
        let (schedules, digits) = (number(schedules)?, number(digits)?);
        compare(rt, alloc, job, schedules, digits, &mut draws, &mut sums)?;
    }
    write!(
        answer,
        "{} schedules, {} events, {} orders, differs {}",
        sums.schedules, sums.events, sums.orders, sums.differing
    )?;
    Ok(())
}

/// Rehearses a window in the orders of so many schedules: the first has so many digits, and each one less than the one
/// before it, over and over.
fn compare<R: Wait>(
    rt: &R,
    alloc: Global,
    job: &Job,
    schedules: u32,
    digits: u32,
    draws: &mut Draws,
    sums: &mut Sums,
) -> Result<(), CaseFault> {
    let wanted = text_of(alloc, &mined(rt, alloc, job)?)?;
    let mut orders = Vec::new(alloc);
    let mut left = digits;
    for _ in 0..schedules {
        let schedule = draw_schedule(alloc, draws, left)?;
        left = left.checked_sub(1).unwrap_or(digits);
        let rehearsed = rehearsed(rt, alloc, job, &schedule)?;
        sums.schedules = sums.schedules.saturating_add(1);
        sums.events = sums.events.saturating_add(rehearsed.events.len());
        if text_of(alloc, &rehearsed.mined)?.as_str() != wanted.as_str() {
            sums.differing = sums.differing.saturating_add(1);
        }
        if !is_among(&rehearsed.events, &orders) {
            orders.push(rehearsed.events)?;
        }
    }
    sums.orders = sums.orders.saturating_add(orders.len());
    Ok(())
}

/// All that is compared: the deltas, the floors, and the graph that the shards keep.
fn text_of(alloc: Global, mined: &Mined) -> Result<String, CaseFault> {
    let mut text = String::new(alloc);
    show_mined(mined, &mut text)?;
    for shard in mined.shards.iter() {
        for v in 0..VERTICES {
            show_pair(alloc, shard, VertexId(v), &mut text)?;
        }
    }
    Ok(text)
}

fn is_among(events: &[Event], orders: &[List<Event>]) -> bool {
    orders.iter().any(|order| order.as_slice() == events)
}

/// So many groups of one to six updates, some of which a graph may refuse.
fn draw_groups(alloc: Global, draws: &mut Draws, count: u32) -> Result<Vec<Group>, NoMemory> {
    let mut groups = Vec::new(alloc);
    for _ in 0..count {
        let mut updates = List::new(alloc);
        for _ in 0..=draws.below(6) {
            updates.push(draw_update(draws))?;
        }
        groups.push(updates)?;
    }
    Ok(groups)
}

fn draw_update(draws: &mut Draws) -> Update {
    let from = VertexId(draws.below(VERTICES));
    let to = VertexId(draws.below(VERTICES));
    let label = LabelId(draws.below(2));
    match draws.below(10) {
        0 => Update::RemoveVertex { id: from },
        1 => Update::LabelVertex { id: from, label },
        2 | 3 | 4 => Update::AddVertex { id: from, label },
        5 => Update::LabelEdge { from, to, label },
        6 => Update::RemoveEdge { from, to },
        _ => Update::AddEdge { from, to, label },
    }
}
