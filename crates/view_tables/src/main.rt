//! Compares what shards tell with plain snapshots. A line of standard input is a case: which graphs are made, how they
//! are changed, and among how many shards they are parted. It is written with how much was compared, or with the first
//! graph where the two differ. Blank lines, and those that begin with `#`, are written alone.
#![tactic(auto)]

mod case;
mod comparing;
mod draws;
mod graphs;
mod groups;
mod outcome;
mod shards;

use case::answer;
use std::io;

fn main(rt: HostRuntime) -> io::Result<()> {
    for line in rt.lines(rt.alloc()) {
        let line = line?;
        let line = line.as_str();
        if line.is_empty() || line.starts_with('#') {
            println!(rt; "{line}")?;
        } else {
            let answer = answer(rt.alloc(), line)?;
            println!(rt; "{line} -> {answer}")?;
        }
    }
    Ok(())
}
