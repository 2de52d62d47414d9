//! One window: mined, rehearsed, and event by event.
ghost use Rattle.cond_eval.specs.meaning.Patterns.{pattern_of};
ghost use Rattle.graph_types.specs.meaning.Graph.{Graph};
ghost use Rattle.rehearsal.specs.meaning.Soundness.{IsSoundMachine};

use crate::case::CaseFault;
use crate::events::{read_event, show_events};
use crate::job::Job;
use crate::ready::{Ready, prepare};
use crate::schedule::{Schedule, read_schedule};
use crate::showing::show_mined;
use graph_types::{FreeGate, NoMemory};
use group_window::Window;
use rehearsal::{Machine, MachineStop, Rehearsed, rehearse};
use std::alloc::Global;
use std::sync::Wait;
use window_miner::{Mined, mine_window};

/// `mine`: what mining tells.
pub fn show_mining<R: Wait>(
    rt: &R,
    alloc: Global,
    job: &Job,
    answer: &mut String,
) -> Result<(), CaseFault> {
    show_mined(&mined(rt, alloc, job)?, answer)
}

/// `rehearse DIGITS`: what a rehearsal tells, and its events.
pub fn show_rehearsal<R: Wait>(
    rt: &R,
    alloc: Global,
    digits: &str,
    job: &Job,
    answer: &mut String,
) -> Result<(), CaseFault> {
    let schedule = read_schedule(alloc, digits)?;
    let rehearsed = rehearsed(rt, alloc, job, &schedule)?;
    show_mined(&rehearsed.mined, answer)?;
    answer.push_str("\n  ")?;
    show_events(&rehearsed.events, answer)
}

/// `machine EVENT, .., EVENT`: lets events happen, and tells after each which ones may.
pub fn show_machine<R: Wait>(
    rt: &R,
    alloc: Global,
    events: &str,
    job: &Job,
    answer: &mut String,
) -> Result<(), CaseFault> {
    let Ready { shards, window } = prepare(rt, alloc, job)?;
    let machine = Machine::new(alloc, shards, &window)?;
    let_happen(alloc, machine, &window, job, events, answer)
}

fn let_happen(
    alloc: Global,
    mut machine: Machine,
    window: &Window,
    job: &Job,
    events: &str,
    answer: &mut String,
) -> Result<(), CaseFault>
    requires { (g : Graph) × IsSoundMachine (pattern_of job.now.program) job.now.most window.now g machine }
{
    show_events(&machine.enabled(alloc, window)?, answer)?;
    for text in events.split(", ") {
        let event = read_event(text)?;
        answer.push_str("\n  ")?;
        answer.push_str(text)?;
        match machine.step(alloc, window, &job.program, job.most, &event) {
            Ok(()) => {}
            Err(MachineStop::Disabled) => answer.push_str(" is disabled")?,
            Err(MachineStop::NoMemory) => return Err(CaseFault::NoMemory),
        }
        answer.push_str(": ")?;
        show_events(&machine.enabled(alloc, window)?, answer)?;
    }
    Ok(())
}

pub fn mined<R: Wait>(rt: &R, alloc: Global, job: &Job) -> Result<Mined, NoMemory> {
    let Ready { shards, window } = prepare(rt, alloc, job)?;
    mine_window(
        rt,
        alloc,
        shards,
        &window,
        &job.program,
        1,
        job.most,
        &FreeGate,
    )
}

pub fn rehearsed<R: Wait>(
    rt: &R,
    alloc: Global,
    job: &Job,
    schedule: &Schedule,
) -> Result<Rehearsed, NoMemory> {
    let Ready { shards, window } = prepare(rt, alloc, job)?;
    rehearse(
        alloc,
        shards,
        &window,
        &job.program,
        job.most,
        schedule.digits(),
    )
}
