//! Times a snapshot on a stream of updates: builds a graph, changes it, and looks at the neighbours of
//! vertices. `bench/README.md` says how it is run beside the same work in plain Rust.
//!
//! The words are the shape, the ids, and the numbers of vertices, of edges and of steps after them.
//! What was done goes to standard output, and the times to standard error.
#![tactic(auto)]

use bench_streams::{Stream, Words};
use graph_types::{Snapshot, Update};
use std::alloc::{AllocError, Global};
use std::time::Instant;
use std::{env, io};
use update_rules::{StepFault, step};

/// How many updates were accepted and refused.
#[derive(Clone, Copy)]
struct Tally {
    accepted: u64,
    refused: u64,
}

impl Tally {
    fn new() -> Tally {
        Tally {
            accepted: 0,
            refused: 0,
        }
    }

    /// Makes an update.
    fn make(&mut self, graph: &mut Snapshot, update: &Update) -> Result<(), AllocError> {
        match step(graph, update) {
            Ok(()) => self.accepted = self.accepted.wrapping_add(1),
            Err(StepFault::NoMemory) => return Err(AllocError),
            Err(_) => self.refused = self.refused.wrapping_add(1),
        }
        Ok(())
    }
}

/// Makes the updates of the stream with these numbers.
fn make_each(
    graph: &mut Snapshot,
    stream: Stream,
    from: u64,
    to: u64,
) -> Result<Tally, AllocError> {
    let mut tally = Tally::new();
    for number in from..to {
        tally.make(graph, &stream.update(number))?;
    }
    Ok(tally)
}

/// How many neighbours the vertices have that are drawn, one for each step.
fn look(alloc: Global, graph: &Snapshot, stream: Stream, steps: u64) -> Result<u64, AllocError> {
    let mut neighbours = 0u64;
    for number in 0..steps {
        let Ok(near) = graph.near(alloc, stream.draw(number)) else {
            return Err(AllocError);
        };
        neighbours = neighbours.wrapping_add(near.len() as u64);
    }
    Ok(neighbours)
}

/// What was done, and how long each part took in nanoseconds.
#[derive(Clone, Copy)]
struct Done {
    built: Tally,
    changed: Tally,
    neighbours: u64,
    times: [u128; 3],
}

fn work(rt: &HostRuntime, words: &Words) -> io::Result<Done> {
    let mut graph = Snapshot::new(rt.alloc());
    let start = Instant::now(rt)?;
    let begun = words.stream.building();
    let built = make_each(&mut graph, words.stream, 0, begun)?;
    let build_time = start.elapsed(rt)?.as_nanos();
    let start = Instant::now(rt)?;
    let end = begun + u64::from(words.steps);
    let changed = make_each(&mut graph, words.stream, begun, end)?;
    let churn_time = start.elapsed(rt)?.as_nanos();
    let start = Instant::now(rt)?;
    let neighbours = look(rt.alloc(), &graph, words.stream, u64::from(words.steps))?;
    let look_time = start.elapsed(rt)?.as_nanos();
    Ok(Done {
        built,
        changed,
        neighbours,
        times: [build_time, churn_time, look_time],
    })
}

fn main(rt: HostRuntime) -> io::Result<()> {
    let words: Vec<String> = env::args(&rt)?.skip(1).collect(rt.alloc())?;
    let Some(words) = Words::read(&words) else {
        return eprintln!(rt;
            "words: power|star scattered|descending|multiples VERTICES EDGES STEPS"
        );
    };
    let Done {
        built,
        changed,
        neighbours,
        times: [build, churn, look],
    } = work(&rt, &words)?;
    println!(rt; "built {} refused {}", built.accepted, built.refused)?;
    println!(rt; "changed {} refused {}", changed.accepted, changed.refused)?;
    println!(rt; "neighbours {neighbours}")?;
    eprintln!(rt; "build {build} churn {churn} near {look}")
}
