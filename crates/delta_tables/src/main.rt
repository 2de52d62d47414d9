//! Compares the search from a change with the plain listing, and tells what it finds of single updates. A line of
//! standard input is a row. One that begins with a number says which graphs are made and how they are changed, and after a
//! colon a program, in which `;` parts lines: it is written with what these changes come to in all, or with the first
//! graph where the two differ. One that begins with `update` has a program and updates, and is written with what each
//! search tells of the last of them; one that begins with `catch` has finds, and is written with what a catch does with
//! each; one that begins with `windows` says besides how the changes are mined over shards. Blank lines, and those that begin with `#`, are written alone.
#![tactic(auto)]

mod case;
mod catches;
mod comparing;
mod deltas;
mod draws;
mod exploring;
mod filling;
mod finds;
mod graphs;
mod one_update;
mod outcome;
mod programs;
mod report;
mod rows;
mod windows;

use rows::answer;
use std::io;

fn main(rt: HostRuntime) -> io::Result<()> {
    for line in rt.lines(rt.alloc()) {
        let line = line?;
        let line = line.as_str();
        if line.is_empty() || line.starts_with('#') {
            println!(rt; "{line}")?;
        } else {
            let answer = answer(&rt, rt.alloc(), line)?;
            println!(rt; "{line} -> {answer}")?;
        }
    }
    Ok(())
}
