//! Tables of what a search asks: pictures, conditions, the pieces of a graph, and what went and what came.
//! Each line of standard input is a case, and is printed with what the calls answer. Other lines are
//! printed as they are.
//!
//! A case is a word, fields, a colon and a text, in which `;` parts lines. Pictures and graphs are given by
//! updates, and a case goes on with those of the case before.
#![tactic(auto)]

mod evaluations;
mod limits;
mod listings;
mod pictures;
mod programs;
mod tables;

use graph_types::NoMemory;
use std::alloc::{AllocError, Global};
use std::io;
use tables::Tables;

fn main(rt: HostRuntime) -> io::Result<()> {
    let Ok(mut tables) = Tables::new(rt.alloc()) else {
        return println!(rt; "out of memory");
    };
    for line in rt.lines(rt.alloc()) {
        let answered = answered(rt.alloc(), line?.as_str(), &mut tables)?;
        println!(rt; "{answered}")?;
    }
    Ok(())
}

/// A line, and what its case answers if it says one.
fn answered(alloc: Global, line: &str, tables: &mut Tables) -> Result<String, AllocError> {
    match tables.answer(alloc, line) {
        Ok(None) => String::from_str(alloc, line),
        Ok(Some(answer)) => format!(in alloc; "{line} => {answer}"),
        Err(NoMemory) => format!(in alloc; "{line} => out of memory"),
    }
}
