//! Tables of fits. A line of standard input is a case: a pattern and a picture, which is written with the least fit; or
//! which pictures and patterns are made, for which the fit is compared with what trying all orders finds. Blank lines, and
//! those that begin with `#`, are written alone.
#![tactic(auto)]

mod comparing;
mod draws;
mod made;
mod orders;
mod rows;

use graph_types::NoMemory;
use std::alloc::Global;
use std::io;

fn answer(alloc: Global, line: &str) -> Result<String, NoMemory> {
    let mut halves = line.split(':');
    let table = halves.next().unwrap_or("");
    let case = halves.next().unwrap_or("");
    match table {
        "fit" => rows::fitted(alloc, case),
        "draw" => comparing::compared(alloc, case),
        _ => Ok(String::from_str(alloc, "no case")?),
    }
}

fn main(rt: HostRuntime) -> io::Result<()> {
    for line in rt.lines(rt.alloc()) {
        let line = line?;
        let line = line.as_str();
        if line.is_empty() || line.starts_with('#') {
            println!(rt; "{line}")?;
        } else {
            match answer(rt.alloc(), line) {
                Ok(text) => println!(rt; "{line} -> {text}")?,
                Err(NoMemory) => println!(rt; "{line} -> out of memory")?,
            }
        }
    }
    Ok(())
}
