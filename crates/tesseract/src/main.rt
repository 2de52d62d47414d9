//! Mines patterns in a graph that changes: reads a program and a stream of updates from standard
//! input, and writes what each update takes away and brings to standard output. Or reads such records
//! back, and writes the pieces that are there at a timestamp, or the same records in the later format. Or makes a job
//! from numbers, mines it and writes how many records it has.
#![tactic(auto)]

mod fold;
pub mod laws;
mod migrate;
mod mine;
mod miner;
mod mining;
mod run;
mod status;
mod terms;
#[cfg(test)]
mod tests;
mod trial;
mod waiting;

use graph_types::FreeGate;
use job_io::{StdSink, StdSource};
use run::run;
use std::process::ExitCode;
use std::{env, io};

fn main(rt: HostRuntime) -> ExitCode {
    // Words that can't be had are no command.
    let words = arguments(&rt).unwrap_or(Vec::new(rt.alloc()));
    let mut input = StdSource::new(&rt);
    let mut output = StdSink::new(&rt);
    let mut error = StdSink::error(&rt);
    let status = run(
        &rt,
        rt.alloc(),
        &words,
        &mut input,
        &mut output,
        &mut error,
        &FreeGate,
    );
    ExitCode::from(status.number())
}

/// The words after the program's name.
fn arguments(rt: &HostRuntime) -> io::Result<Vec<String>> {
    Ok(env::args(rt)?.skip(1).collect(rt.alloc())?)
}
