//! Tables of cells and shards. A line of standard input is a case: the word that names its table, and what the calls
//! are given. It is written with its answer. Blank lines, and those that begin with `#`, are written alone.
#![tactic(auto)]

mod case;
mod cells;
mod groups;
mod questions;
mod showing;
mod stores;
mod vertices;

use case::{CaseFault, field};
use line_fields::Names;
use std::alloc::Global;
use std::io;

fn answer(
    alloc: Global,
    names: &mut Names,
    case: &str,
    answer: &mut String,
) -> Result<(), CaseFault> {
    let (table, text) = field(case);
    match table {
        "cell" => cells::cell(alloc, text, answer),
        "store" => stores::store(alloc, names, text, answer),
        _ => Err(CaseFault::BadCase),
    }
}

/// Writes a case with its answer.
fn show<R: Print>(rt: &R, alloc: Global, names: &mut Names, case: &str) -> io::Result<()> {
    let mut text = String::new(alloc);
    match answer(alloc, names, case, &mut text) {
        Ok(()) => println!(rt; "{case} -> {text}"),
        Err(CaseFault::BadCase) => println!(rt; "{case} is no case"),
        Err(CaseFault::NoMemory) => println!(rt; "{case} -> out of memory"),
    }
}

fn main(rt: HostRuntime) -> io::Result<()> {
    let Ok(mut names) = Names::new(rt.alloc()) else {
        return println!(rt; "out of memory");
    };
    for line in rt.lines(rt.alloc()) {
        let line = line?;
        let case = line.as_str();
        if case.is_empty() || case.starts_with('#') {
            println!(rt; "{case}")?;
        } else {
            show(&rt, rt.alloc(), &mut names, case)?;
        }
    }
    Ok(())
}
