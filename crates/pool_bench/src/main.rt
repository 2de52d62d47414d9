//! Times a pool of tasks: a thread feeds empty tasks to it, while thieves, each in a thread of its own,
//! take them. `bench/README.md` says how it is run beside the same work in plain Rust.
//!
//! The words are the numbers of thieves and of tasks. What became of the tasks goes to standard output,
//! and the times to standard error.
#![tactic(auto)]

ghost use Rattle.std.specs.Prelude.{◌≤◌};

mod threads;

use std::alloc::{AllocError, Global};
use std::sync::Wait;
use std::thread::Threads;
use std::time::{Clock, Instant};
use std::{env, io};
use steal_pool::{Settled, pool, settle};
use threads::{Task, feed_and_take};

/// What became of the tasks, and how long it took in nanoseconds to make the pool, to feed and take the
/// tasks, and to settle.
#[derive(Drop)]
struct Done {
    settled: Settled<Task>,
    times: [u128; 3],
}

fn work<R: Threads + Wait + Clock + Sync>(
    rt: &R,
    alloc: Global,
    thieves: u32,
    tasks: u32,
) -> io::Result<Done>
    requires { 1 ≤ thieves }
{
    let start = Instant::now(rt)?;
    let Ok((feed, thieves)) = pool::<Task>(alloc, thieves, tasks) else {
        return Err(io::Error::from(AllocError));
    };
    let make_time = start.elapsed(rt)?.as_nanos();
    let start = Instant::now(rt)?;
    let Ok((feed, thieves)) = feed_and_take(rt, feed, thieves, tasks) else {
        return Err(io::Error::from(AllocError));
    };
    let take_time = start.elapsed(rt)?.as_nanos();
    let start = Instant::now(rt)?;
    let Ok(settled) = settle(rt, alloc, feed, thieves) else {
        return Err(io::Error::from(AllocError));
    };
    let settle_time = start.elapsed(rt)?.as_nanos();
    Ok(Done {
        settled,
        times: [make_time, take_time, settle_time],
    })
}

fn read_words(words: &[String]) -> Option<(u32, u32)> {
    let [thieves, tasks] = words else {
        return None;
    };
    let thieves = thieves.parse::<u32>().ok()?;
    let tasks = tasks.parse::<u32>().ok()?;
    Some((thieves, tasks))
}

fn main(rt: HostRuntime) -> io::Result<()> {
    let words: Vec<String> = env::args(&rt)?.skip(1).collect(rt.alloc())?;
    let (thieves, tasks) = match read_words(&words) {
        Some((thieves, tasks)) if thieves > 0 => (thieves, tasks),
        _ => return eprintln!(rt; "words: THIEVES TASKS, with one thief at least"),
    };
    let Done {
        settled,
        times: [make, take, settle],
    } = work(&rt, rt.alloc(), thieves, tasks)?;
    let (mut taken, mut sum) = (0u64, 0u64);
    for list in settled.taken.as_slice() {
        for number in list.as_slice() {
            taken = taken.wrapping_add(1);
            sum = sum.wrapping_add(*number);
        }
    }
    println!(rt; "taken {taken} sum {sum} left {}", settled.left.len())?;
    eprintln!(rt; "make {make} take {take} settle {settle}")
}
