//! Times a store of versions on a stream of updates, which come in windows: each window is judged, its changes are
//! taken in by shards, what it changed is fetched as it was around each change, and then the shards are pruned.
//! `bench/README.md` says how it is run beside the same work in plain Rust.
//!
//! The words are the shape, the ids, and the numbers of vertices, of edges and of steps after them.
//! What was done goes to standard output, and the processor times to standard error.
#![tactic(auto)]

mod looking;
mod passing;
mod tally;
mod window;

use bench_streams::Words;
use passing::{Store, Times, cpu_nanos, pass};
use std::{env, io};

fn main(rt: HostRuntime) -> io::Result<()> {
    let words: Vec<String> = env::args(&rt)?.skip(1).collect(rt.alloc())?;
    let Some(Words { stream, steps }) = Words::read(&words) else {
        return eprintln!(rt;
            "words: power|star scattered|descending|multiples VERTICES EDGES STEPS"
        );
    };
    let built = stream.building();
    let mut store = Store::new(rt.alloc())?;
    let start = cpu_nanos(&rt)?;
    let work = pass(&rt, &mut store, &stream, 0, built, false)?;
    let build = cpu_nanos(&rt)?.wrapping_sub(start);
    println!(rt;
        "built {} refused {}",
        work.tally.accepted, work.tally.refused
    )?;
    let start = cpu_nanos(&rt)?;
    let work = pass(
        &rt,
        &mut store,
        &stream,
        built,
        built + u64::from(steps),
        true,
    )?;
    let churn = cpu_nanos(&rt)?.wrapping_sub(start);
    println!(rt;
        "changed {} refused {}",
        work.tally.accepted, work.tally.refused
    )?;
    println!(rt;
        "fetched {} labels {} neighbours {}",
        work.seen.fetched, work.seen.labels, work.seen.neighbours
    )?;
    let Times {
        push,
        apply,
        fetch,
        prune,
    } = work.times;
    eprintln!(rt;
        "build {build} churn {churn} push {push} apply {apply} fetch {fetch} prune {prune}"
    )
}
