//! Tables of rehearsals: windows that are mined in one order, and in any other order of their machine's events. A line of
//! standard input is a case: the word that names its table, and after slashes the number of shards and how many pieces are
//! listed at the most, a program, in which `;` parts lines, and the groups of a window. It is written with its answer.
//! Blank lines, and those that begin with `#`, are written alone.
#![tactic(auto)]

mod case;
mod draws;
mod events;
mod job;
mod made;
mod ready;
mod rehearsing;
mod schedule;
mod showing;

use case::{CaseFault, field};
use job::{read_groups, read_job};
use std::alloc::Global;
use std::io;
use std::sync::Wait;

fn answer<R: Wait>(
    rt: &R,
    alloc: Global,
    case: &str,
    answer: &mut String,
) -> Result<(), CaseFault> {
    let (call, text) = case.split_once(" / ").unwrap_or((case, ""));
    let (table, words) = field(call);
    if table == "made" {
        let (mut job, _) = read_job(alloc, text)?;
        return made::made(rt, alloc, words, &mut job, answer);
    }
    let (text, groups) = text.rsplit_once(" / ").unwrap_or((text, ""));
    let (mut job, mut names) = read_job(alloc, text)?;
    job.groups = read_groups(alloc, groups, &mut names)?;
    match table {
        "mine" => rehearsing::show_mining(rt, alloc, &job, answer),
        "rehearse" => rehearsing::show_rehearsal(rt, alloc, words, &job, answer),
        "machine" => rehearsing::show_machine(rt, alloc, words, &job, answer),
        _ => Err(CaseFault::BadCase),
    }
}

/// Writes a case with its answer.
fn show<R: Print + Wait>(rt: &R, alloc: Global, case: &str) -> io::Result<()> {
    let mut text = String::new(alloc);
    match answer(rt, alloc, case, &mut text) {
        Ok(()) => println!(rt; "{case} -> {text}"),
        Err(CaseFault::BadCase) => println!(rt; "{case} is no case"),
        Err(CaseFault::NoMemory) => println!(rt; "{case} -> out of memory"),
    }
}

fn main(rt: HostRuntime) -> io::Result<()> {
    for line in rt.lines(rt.alloc()) {
        let line = line?;
        let case = line.as_str();
        if case.is_empty() || case.starts_with('#') {
            println!(rt; "{case}")?;
        } else {
            show(&rt, rt.alloc(), case)?;
        }
    }
    Ok(())
}
