ghost use Rattle.std.specs.List.{AllByRecursion};
ghost use Rattle.std.specs.Prelude.{map as mapped, ◌≡◌, ◌%◌, ◌<◌, ◌≤◌, ◌+◌, ℕ, All, IfOk, OnOk, IfSome, Option, Some, None, filter, length, slice_get};
ghost use Rattle.cond_eval.specs.meaning.Patterns.{pattern_of};
ghost use Rattle.graph_types.specs.meaning.Graph.{Graph};
ghost use Rattle.mining_model.specs.meaning.Embeddings.{Pattern};
ghost use Rattle.rehearsal.specs.declared.task.Task.TheVariants as task;
ghost use Rattle.rehearsal.specs.meaning.MachineState.{Finished, MachineState, first_state, stage_of, state_of};
ghost use Rattle.rehearsal.specs.meaning.Schedules.{AreDigits, Schedules, chosen, digit_of};
ghost use Rattle.rehearsal.specs.meaning.Soundness.{HaveFound, IsSoundState};
ghost use Rattle.rehearsal.specs.meaning.Table.{all_events, enabled, may};
ghost use Rattle.window_miner.specs.calls.Mining.{CanMine, FollowsShards, IsMined};

use crate::event::Event;
use crate::listing::all_events;
use crate::machine::{Machine, MachineStop};
use crate::task::Task;
use delta_task::Delta;
use filter_polarity::Program;
use graph_types::{List, NoMemory};
use group_window::Window;
use shard_state::Shard;
use std::alloc::Global;
use window_miner::Mined;

/// What was mined of a window, and the events that happened, in their order.
#[derive(Drop)]
pub struct Rehearsed {
    pub mined: Mined,
    pub events: List<Event>,
}

/// Mines the groups of a window as the machine does, its events in the order that the digits choose: in each turn the
/// next digit, or 0 after the last, chooses among the events that may happen. It ends where none may. Of what a group
/// takes away and brings at most `most` pieces are listed. Out of memory takes the shards along.
///
/// A turn takes time linear in the number of shards and of groups, beside what its event takes. There are at most seven
/// turns for each group, and four more for each shard.
pub fn rehearse(
    alloc: Global,
    shards: Vec<Shard>,
    window: &Window,
    program: &Program,
    most: u32,
    digits: &[u8],
) -> Result<Rehearsed, NoMemory>
    requires can { CanMine window.now shards.items }
    requires digits { AreDigits digits.now }
    ensures mined { (g : Graph) → FollowsShards window.now shards.items g →
        IfOk result (λ rehearsed. IsMined (pattern_of program.now) most window.now g rehearsed.mined) }
    ensures scheduled { IfOk result (λ rehearsed. (last : MachineState) ×
        Schedules window.now digits.now 0 (first_state window.now shards.items) rehearsed.events last) }
{
    window.sound();
    let all = all_events(alloc, window, shards[0].shards())?;
    let mut machine = Machine::new(alloc, shards, window)?;
    let mut events = List::new(alloc);
    while let Some(event) = choose(&machine, window, &all, digit_at(digits, events.len())) {
        match machine.step(alloc, window, program, most, &event) {
            Ok(()) => events.push(event)?,
            Err(MachineStop::NoMemory) => return Err(NoMemory),
            Err(MachineStop::Disabled) => unreachable!(),
        }
    }
    let Machine { shards, tasks, .. } = machine;
    Ok(Rehearsed {
        mined: Mined {
            shards,
            deltas: deltas_of(alloc, tasks)?,
        },
        events,
    })
}

// The digit of a turn, counted from 0; it is 0 after the last.
fn digit_at(digits: &[u8], turn: usize) -> usize
    requires { AreDigits digits.now }
    ensures { result ≡ digit_of digits.now turn }
{
    match digits.get(turn) {
        Some(digit) => (*digit - b'0') as usize,
        None => 0,
    }
}

// The event that a digit chooses among those of all that may happen.
fn choose(machine: &Machine, window: &Window, all: &[Event], digit: usize) -> Option<Event>
    requires { (g : Graph) × IsSoundState window.now g (state_of machine.now) }
    ensures { result ≡ chosen (filter (may window.now (state_of machine.now)) all.now) digit }
{
    let enabled = count(machine, window, all);
    if enabled == 0 {
        return None;
    }
    nth(machine, window, all, digit % enabled)
}

// How many of these events may happen.
fn count(machine: &Machine, window: &Window, events: &[Event]) -> usize
    requires { (g : Graph) × IsSoundState window.now g (state_of machine.now) }
    ensures { result ≡ length (filter (may window.now (state_of machine.now)) events.now) }
{
    let mut count = 0;
    for event in events {
        if machine.may(window, event) {
            count += 1;
        }
    }
    count
}

// The one of this number, counted from 0, among those that may happen.
fn nth(machine: &Machine, window: &Window, events: &[Event], n: usize) -> Option<Event>
    requires { (g : Graph) × IsSoundState window.now g (state_of machine.now) }
    ensures { result ≡ slice_get (filter (may window.now (state_of machine.now)) events.now) n }
{
    let mut left = n;
    for event in events {
        if machine.may(window, event) {
            if left == 0 {
                return Some(*event);
            }
            left -= 1;
        }
    }
    None
}

// What tasks found that are all finished.
fn deltas_of(alloc: Global, tasks: Vec<Task>) -> Result<Vec<Delta>, NoMemory>
    requires { AllByRecursion (λ task. stage_of task ≡ Finished) tasks.items }
    ensures { IfOk result (λ deltas. mapped task.Finished deltas.items ≡ tasks.items) }
{
    let mut deltas = Vec::new(alloc);
    for task in tasks {
        match task {
            Task::Finished(delta) => deltas.push(delta)?,
            _ => unreachable!(),
        }
    }
    Ok(deltas)
}
