ghost use Rattle.std.specs.Prelude.{◌≡◌, ◌<◌, nat_lt, length, IsTrue, IfOk, OnOk};
ghost use Rattle.std.specs.List.{list_all};
ghost use Rattle.shard_state.specs.calls.Sharing.{all_pruned};
ghost use Rattle.shard_state.specs.calls.Viewing.{CanBeViewed};
ghost use Rattle.shard_tables.specs.calls.Asking.{TellWindow};

use crate::case::{CaseFault, field, stamp, vertex};
use crate::showing::{show_fetched, show_pair};
use crate::vertices::ascending_vertices;
use graph_types::{GraphView, Stamp, VertexId};
use group_window::Window;
use shard_state::sharing::prune_all;
use shard_state::{OwnedView, Shard, apply_parts};
use std::alloc::Global;
use std::fmt::Write;

/// `take`: the shards take in the next group. It is no case where there is none, or where a shard was pruned as far as
/// that.
pub fn take(
    window: &Window,
    shards: &mut [Shard],
    taken: usize,
    answer: &mut String,
) -> Result<usize, CaseFault>
    requires { TellWindow window.now taken shards.old }
    ensures { IfOk result (λ now. TellWindow window.now now shards.new) }
{
    if taken >= window.len() {
        return Err(CaseFault::BadCase);
    }
    let next = Stamp(taken as u64 + 1);
    if !are_pruned_below(shards, next) {
        return Err(CaseFault::BadCase);
    }
    apply_parts(shards, window.parts_of(taken).as_slice(), next)?;
    write!(answer, "taken {}", next.0)?;
    Ok(taken + 1)
}

/// `prune TIMESTAMP`: shows the floor of each shard then, and the timestamp of the last part that it took in.
pub fn prune(shards: &mut [Shard], floor: Stamp, answer: &mut String) -> Result<(), CaseFault>
    ensures { OnOk result (shards.new ≡ all_pruned floor shards.old) }
{
    prune_all(shards, floor);
    answer.push_str("pruned")?;
    show_floors(shards, answer)
}

fn show_floors(shards: &[Shard], answer: &mut String) -> Result<(), CaseFault> {
    for shard in shards {
        write!(
            answer,
            ", floor {} upto {}",
            shard.floor().0,
            shard.upto().0
        )?;
    }
    Ok(())
}

/// `pair VERTEX TIMESTAMP` and `among VERTEX TIMESTAMP VERTEX ..` show what the shard of the vertex tells of it, and
/// `fetch` and `fetch_among` what a view of all shards does, with its reads.
pub fn look(
    alloc: Global,
    window: &Window,
    shards: &[Shard],
    taken: usize,
    question: &str,
    answer: &mut String,
) -> Result<(), CaseFault>
    requires { TellWindow window.now taken shards.now }
{
    let (verb, text) = field(question);
    let (word, text) = field(text);
    let v = vertex(word)?;
    let (word, among) = field(text);
    let t = stamp(word)?;
    match verb {
        "pair" => pair(alloc, shards, v, t, answer),
        "among" => pair_among(alloc, shards, v, t, among, answer),
        _ if !can_be_viewed(window, shards, taken, t) => Err(CaseFault::BadCase),
        "fetch" => fetch(alloc, shards, v, t, answer),
        "fetch_among" => fetch_among(alloc, shards, v, t, among, answer),
        _ => Err(CaseFault::BadCase),
    }
}

/// It is no case up to the shard's floor.
fn pair(
    alloc: Global,
    shards: &[Shard],
    v: VertexId,
    t: Stamp,
    answer: &mut String,
) -> Result<(), CaseFault>
    requires { 0 < length shards.now }
{
    let shard = &shards[v.0 as usize % shards.len()];
    if t <= shard.floor() {
        return Err(CaseFault::BadCase);
    }
    show_pair(&shard.pair(alloc, v, t)?, answer)
}

fn pair_among(
    alloc: Global,
    shards: &[Shard],
    v: VertexId,
    t: Stamp,
    among: &str,
    answer: &mut String,
) -> Result<(), CaseFault>
    requires { 0 < length shards.now }
{
    let shard = &shards[v.0 as usize % shards.len()];
    if t <= shard.floor() {
        return Err(CaseFault::BadCase);
    }
    let among = ascending_vertices(alloc, among)?;
    show_pair(&shard.pair_among(alloc, v, t, among.as_slice())?, answer)
}

fn fetch(
    alloc: Global,
    shards: &[Shard],
    v: VertexId,
    t: Stamp,
    answer: &mut String,
) -> Result<(), CaseFault>
    requires { CanBeViewed shards.now t }
{
    let mut view = OwnedView::new(shards, t);
    let fetched = view.fetch(alloc, v);
    show_fetched(fetched, view.reads(), answer)
}

fn fetch_among(
    alloc: Global,
    shards: &[Shard],
    v: VertexId,
    t: Stamp,
    among: &str,
    answer: &mut String,
) -> Result<(), CaseFault>
    requires { CanBeViewed shards.now t }
{
    let among = ascending_vertices(alloc, among)?;
    let mut view = OwnedView::new(shards, t);
    let fetched = view.fetch_among(alloc, v, among.as_slice());
    show_fetched(fetched, view.reads(), answer)
}

/// The shards took in the group of the timestamp, and none was pruned as far as that.
fn can_be_viewed(window: &Window, shards: &[Shard], taken: usize, t: Stamp) -> bool
    requires { TellWindow window.now taken shards.now }
    ensures { IsTrue result → CanBeViewed shards.now t }
{
    if t.0 < 1 || t.0 > taken as u64 {
        return false;
    }
    are_pruned_below(shards, t)
}

fn are_pruned_below(shards: &[Shard], t: Stamp) -> bool
    ensures { result ≡ list_all (λ shard. nat_lt shard.floor t) shards.now }
{
    shards.iter().all(|shard| shard.floor() < t)
}
