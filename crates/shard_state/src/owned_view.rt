ghost use Rattle.std.specs.Prelude.{◌≡◌, ◌-◌, ◌<◌, ℕ, IfOk, IfErr, length};
ghost use Rattle.std.specs.List.Sorted.{IsStrictlySortedBy};
ghost use Rattle.std.specs.Ordering.{nat_cmp};
ghost use Rattle.graph_types.specs.calls.Counts.{next_count};
ghost use Rattle.graph_types.specs.calls.Views.{CountsHeld, CountsRead};
ghost use Rattle.graph_types.specs.declared.view.FetchStop.TheVariants as stop;
ghost use Rattle.graph_types.specs.meaning.Neighbourhood.{kept_among, pair_in};
ghost use Rattle.shard_state.specs.calls.Viewing.{CanBeViewed};
ghost use Rattle.shard_state.specs.meaning.Joining.{joined_graph, shard_of_vertex};

use crate::Shard;
use graph_types::{FetchStop, GraphView, Pair, Stamp, VertexId};
use std::alloc::Global;
use std::marker::Model;

/// A view of the graphs that shards hold before and after a timestamp. They have one owner, so nothing in it is
/// ever held by another.
#[derive(Drop)]
pub struct OwnedView<'a> {
    shards: &'a [Shard],
    at: Stamp,
    reads: u64,
}

impl<'a> Model for OwnedView<'a> {
    ghost use Rattle.std.specs.Prelude.{◌-◌};
    ghost use Rattle.graph_types.specs.calls.TwoGraphs.{TwoGraphs, two_graphs_code};
    ghost use Rattle.shard_state.specs.calls.Viewing.{CanBeViewed};
    ghost use Rattle.shard_state.specs.meaning.Joining.{joined_graph};

    ghost Value = { TwoGraphs };

    ghost coded = { two_graphs_code };

    ghost view = { λ s. record { before = joined_graph s.shards.now (s.at - 1); after = joined_graph s.shards.now s.at; reads = s.reads } };

    ghost invariant = { λ s. CanBeViewed s.shards.now s.at };
}

impl<'a> OwnedView<'a> {
    /// A view of what these shards hold before and after a timestamp, of which nothing is read yet.
    pub fn new(shards: &'a [Shard], at: Stamp) -> OwnedView<'a>
        requires { CanBeViewed shards.now at }
        ensures { result ≡ record { before = joined_graph shards.now (at - 1); after = joined_graph shards.now at; reads = 0 } }
    {
        OwnedView {
            shards,
            at,
            reads: 0,
        }
    }

    /// How many reads were made.
    pub fn reads(&self) -> u64
        ensures { result ≡ self.now.reads }
    {
        self.reads
    }
}

impl<'a> GraphView for OwnedView<'a> {
    ghost before = { λ s. s.before };

    ghost after = { λ s. s.after };

    ghost reads = { λ s. s.reads };

    ghost holds = { λ _. 0 };

    /// Takes what `Shard::pair` takes.
    fn fetch(&mut self, alloc: Global, v: VertexId) -> Result<Pair, FetchStop>
        ensures pair { IfOk result (λ pair. pair ≡ pair_in self.old.before self.old.after v) }
        ensures reads { CountsRead self.old.reads self.new.reads result }
        ensures holds { CountsHeld 0 0 result }
        ensures before { self.new.before ≡ self.old.before }
        ensures after { self.new.after ≡ self.old.after }
        ensures memory { IfErr result (λ error. error ≡ stop.NoMemory) }
    {
        self.reads = one_more(self.reads);
        let pair = shard_of(self.shards, v).pair(alloc, v, self.at)?;
        Ok(pair)
    }

    /// Takes what `Shard::pair_among` takes.
    fn fetch_among(
        &mut self,
        alloc: Global,
        v: VertexId,
        among: &[VertexId],
    ) -> Result<Pair, FetchStop>
        requires { IsStrictlySortedBy nat_cmp among.now }
        ensures pair { IfOk result (λ pair. pair ≡ kept_among among.now (pair_in self.old.before self.old.after v)) }
        ensures reads { CountsRead self.old.reads self.new.reads result }
        ensures holds { CountsHeld 0 0 result }
        ensures before { self.new.before ≡ self.old.before }
        ensures after { self.new.after ≡ self.old.after }
        ensures memory { IfErr result (λ error. error ≡ stop.NoMemory) }
    {
        self.reads = one_more(self.reads);
        let pair = shard_of(self.shards, v).pair_among(alloc, v, self.at, among)?;
        Ok(pair)
    }

    /// Takes a look-up.
    fn size(&mut self, v: VertexId) -> Result<usize, FetchStop>
        ensures reads { self.new.reads ≡ self.old.reads }
        ensures holds { CountsHeld 0 0 result }
        ensures before { self.new.before ≡ self.old.before }
        ensures after { self.new.after ≡ self.old.after }
        ensures memory { IfErr result (λ error. error ≡ stop.NoMemory) }
    {
        Ok(shard_of(self.shards, v).size(v))
    }
}

/// A count that is raised by one, where it doesn't stand at its last value.
fn one_more(count: u64) -> u64
    ensures { result ≡ next_count count }
{
    count.saturating_add(1)
}

/// The shard of a vertex.
fn shard_of(shards: &[Shard], v: VertexId) -> &Shard
    requires { 0 < length shards.now }
    ensures { result.now ≡ shard_of_vertex shards.now v }
{
    &shards[v.0 as usize % shards.len()]
}
