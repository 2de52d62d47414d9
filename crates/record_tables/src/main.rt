//! Tables of records: each line of standard input is a case, and is printed with what the calls of
//! `record_text`, `snapshot_fold` and `record_migration` answer. Other lines are printed as they are.
//!
//! A case is a word, options as `name=number`, a colon and a text, in which `;` stands for an LF.
#![tactic(auto)]

mod case;
mod folds;
mod records;
mod text;

use case::Case;
use graph_types::NoMemory;
use snapshot_fold::Fold;
use std::alloc::{AllocError, Global};
use std::io;

fn main(rt: HostRuntime) -> io::Result<()> {
    let mut fold = Fold::new(rt.alloc());
    for line in rt.lines(rt.alloc()) {
        let answered = answered(rt.alloc(), line?.as_str(), &mut fold)?;
        println!(rt; "{answered}")?;
    }
    Ok(())
}

/// A line, and what its case answers if it says one.
fn answered(alloc: Global, line: &str, fold: &mut Fold) -> Result<String, AllocError> {
    let Some(case) = Case::read(line) else {
        return String::from_str(alloc, line);
    };
    match answer(alloc, &case, fold) {
        Ok(answer) => format!(in alloc; "{line} => {answer}"),
        Err(NoMemory) => format!(in alloc; "{line} => out of memory"),
    }
}

/// What the calls of a case answer. `fold` takes the records of `take`, one after another.
fn answer(alloc: Global, case: &Case, fold: &mut Fold) -> Result<String, NoMemory> {
    match case.table {
        "read" => records::read(alloc, case),
        "write" => records::write(alloc, case),
        "list" => records::list(alloc, case),
        "fold" => folds::fold(alloc, case),
        "cuts" => folds::cuts(alloc, case),
        "migrate" => folds::migrate(alloc, case),
        "start" => folds::start(alloc, fold),
        "take" => folds::take(alloc, case, fold),
        _ => Ok(String::from_str(alloc, "no such table")?),
    }
}
