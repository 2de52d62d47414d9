//! Windows that pass through a store one after another.
ghost use Rattle.std.specs.Prelude.{◌+◌, ◌≤◌, ◌^◌, IfOk, OnOk, length};
ghost use Rattle.shard_state.specs.calls.Sharing.{TellGroups};
ghost use Rattle.store_bench.specs.calls.Passing.{KeepsUpTo};

use crate::looking::{Seen, look};
use crate::tally::Tally;
use crate::window::{SHARDS, fill};
use bench_streams::Stream;
use graph_types::{Snapshot, Stamp};
use group_window::Window;
use shard_state::Shard;
use shard_state::sharing::{make_shards, prune_all, take_in};
use std::alloc::{AllocError, Global};
use std::io;
use std::time::CpuClock;

/// The graph that judges updates, and the shards that keep it through time, up to a timestamp.
#[derive(Drop)]
pub struct Store {
    graph: Snapshot,
    shards: Vec<Shard>,
    at: Stamp,
}

impl Store {
    /// A store of the empty graph.
    pub fn new(alloc: Global) -> Result<Store, AllocError>
        ensures { IfOk result (λ store. KeepsUpTo 0 store) }
    {
        let Ok(shards) = make_shards(alloc, SHARDS) else {
            return Err(AllocError);
        };
        Ok(Store {
            graph: Snapshot::new(alloc),
            shards,
            at: Stamp(0),
        })
    }
}

/// How much processor time each part took in nanoseconds.
#[derive(Clone, Copy)]
pub struct Times {
    pub push: u128,
    pub apply: u128,
    pub fetch: u128,
    pub prune: u128,
}

/// The processor time that the program has used, in nanoseconds.
pub fn cpu_nanos(rt: &HostRuntime) -> io::Result<u128> {
    Ok(rt.process_cpu_time()?.as_nanos())
}

/// A time, and what passed since a start.
fn since(rt: &HostRuntime, time: u128, start: u128) -> io::Result<u128> {
    Ok(time.wrapping_add(cpu_nanos(rt)?.wrapping_sub(start)))
}

/// What was done.
#[derive(Clone, Copy)]
pub struct Work {
    pub tally: Tally,
    pub seen: Seen,
    pub times: Times,
}

/// The most updates of a window.
const WINDOW: u64 = 256;

/// Passes the updates with these numbers through the store, in windows. What they changed is fetched where asked for.
pub fn pass(
    rt: &HostRuntime,
    store: &mut Store,
    stream: &Stream,
    from: u64,
    to: u64,
    looks: bool,
) -> io::Result<Work>
    requires kept { KeepsUpTo from store.old }
    requires forward { from ≤ to }
    requires early { to ≤ 10 ^ 15 }
    ensures { OnOk result (KeepsUpTo to store.new) }
{
    let mut work = Work {
        tally: Tally::new(),
        seen: Seen::new(),
        times: Times {
            push: 0,
            apply: 0,
            fetch: 0,
            prune: 0,
        },
    };
    let mut done = from;
    while done < to {
        let next = done + WINDOW.min(to - done);
        pass_window(rt, store, stream, done, next, looks, &mut work)?;
        done = next;
    }
    Ok(work)
}

fn pass_window(
    rt: &HostRuntime,
    store: &mut Store,
    stream: &Stream,
    from: u64,
    to: u64,
    looks: bool,
    work: &mut Work,
) -> io::Result<()>
    requires kept { KeepsUpTo from store.old }
    requires forward { from ≤ to }
    requires few { to ≤ from + 256 }
    requires early { to ≤ 10 ^ 15 }
    ensures { OnOk result (KeepsUpTo to store.new) }
{
    let alloc = rt.alloc();
    let start = cpu_nanos(rt)?;
    let window = fill(
        alloc,
        &mut store.graph,
        store.at,
        stream,
        from,
        to,
        &mut work.tally,
    )?;
    work.times.push = since(rt, work.times.push, start)?;
    if window.len() == 0 {
        return Ok(());
    }
    let start = cpu_nanos(rt)?;
    take_groups(&mut store.shards, &window)?;
    work.times.apply = since(rt, work.times.apply, start)?;
    if looks {
        let start = cpu_nanos(rt)?;
        look(alloc, &store.shards, &window, &mut work.seen)?;
        work.times.fetch = since(rt, work.times.fetch, start)?;
    }
    let start = cpu_nanos(rt)?;
    let last = window.stamp_after(window.len());
    prune_all(&mut store.shards, last);
    store.at = last;
    work.times.prune = since(rt, work.times.prune, start)?;
    Ok(())
}

/// Takes in all groups of the window.
fn take_groups(shards: &mut [Shard], window: &Window) -> Result<(), AllocError>
    requires { TellGroups window.now 0 0 shards.old }
    ensures { OnOk result (TellGroups window.now (length window.now.later) 0 shards.new) }
{
    for group in 0..window.len() {
        let Ok(()) = take_in(shards, window, group) else {
            return Err(AllocError);
        };
    }
    Ok(())
}
