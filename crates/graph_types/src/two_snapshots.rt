ghost use Rattle.std.specs.Prelude.{◌≡◌, filter, IfOk, IfErr};
ghost use Rattle.std.specs.FinMap as map;
ghost use Rattle.std.specs.List.Sorted.{IsStrictlySortedBy};
ghost use Rattle.std.specs.Ordering.{nat_cmp};
ghost use Rattle.graph_types.specs.calls.Counts.{next_count};
ghost use Rattle.graph_types.specs.calls.Views.{CountsHeld, CountsRead};
ghost use Rattle.graph_types.specs.declared.view.FetchStop.TheVariants as stop;
ghost use Rattle.graph_types.specs.meaning.Neighbourhood.{kept_among, leads_among, near_of, pair_in};
ghost use Rattle.graph_types.specs.storage.Found.{near_found};
ghost use Rattle.graph_types.specs.storage.Seen.{seen_at};

use crate::adjacency::Vertex;
use crate::cursor::Cursor;
use crate::merge::{self, Merge};
use crate::{FetchStop, GraphView, LabelId, Near, NearList, NoMemory, Pair, Snapshot, VertexId};
use std::alloc::Global;
use std::marker::Model;

/// To look a neighbour up takes about as long as to go over so many.
const LOOK_UP: usize = 8;

/// A view of two snapshots. Nothing in it is ever held by another.
#[derive(Drop)]
pub struct TwoSnapshots<'a> {
    before: &'a Snapshot,
    after: &'a Snapshot,
    reads: u64,
}

impl<'a> Model for TwoSnapshots<'a> {
    ghost use Rattle.graph_types.specs.calls.TwoGraphs.{TwoGraphs, two_graphs_code};

    ghost Value = { TwoGraphs };

    ghost coded = { two_graphs_code };

    ghost view = { λ s. record { before = s.before.now; after = s.after.now; reads = s.reads } };
}

impl<'a> TwoSnapshots<'a> {
    /// A view of these snapshots, of which nothing is read yet.
    pub fn new(before: &'a Snapshot, after: &'a Snapshot) -> TwoSnapshots<'a>
        ensures { result ≡ record { before = before.now; after = after.now; reads = 0 } }
    {
        TwoSnapshots {
            before,
            after,
            reads: 0,
        }
    }

    /// How many reads were made.
    pub fn reads(&self) -> u64
        ensures { result ≡ self.now.reads }
    {
        self.reads
    }
}

impl<'a> GraphView for TwoSnapshots<'a> {
    ghost before = { λ s. s.before };

    ghost after = { λ s. s.after };

    ghost reads = { λ s. s.reads };

    ghost holds = { λ _. 0 };

    /// Takes a look-up in each snapshot, and time linear in the number of neighbours in both.
    fn fetch(&mut self, alloc: Global, v: VertexId) -> Result<Pair, FetchStop>
        ensures pair { IfOk result (λ pair. pair ≡ pair_in self.old.before self.old.after v) }
        ensures reads { CountsRead self.old.reads self.new.reads result }
        ensures holds { CountsHeld 0 0 result }
        ensures before { self.new.before ≡ self.old.before }
        ensures after { self.new.after ≡ self.old.after }
        ensures memory { IfErr result (λ error. error ≡ stop.NoMemory) }
    {
        self.reads = one_more(self.reads);
        let (before, after) = (self.before.vertex(v), self.after.vertex(v));
        let room = degree(before).max(degree(after));
        Ok(Pair {
            before: label_of(before),
            after: label_of(after),
            near: merge::list(alloc, Merge::of(cursor_of(before), cursor_of(after)), room)?,
        })
    }

    /// Takes a look-up in each snapshot. Then it takes one for each of these vertices, where they are few
    /// beside the neighbours, and else time linear in the number of both.
    fn fetch_among(
        &mut self,
        alloc: Global,
        v: VertexId,
        among: &[VertexId],
    ) -> Result<Pair, FetchStop>
        requires { IsStrictlySortedBy nat_cmp among.now }
        ensures pair { IfOk result (λ pair. pair ≡ kept_among among.now (pair_in self.old.before self.old.after v)) }
        ensures reads { CountsRead self.old.reads self.new.reads result }
        ensures holds { CountsHeld 0 0 result }
        ensures before { self.new.before ≡ self.old.before }
        ensures after { self.new.after ≡ self.old.after }
        ensures memory { IfErr result (λ error. error ≡ stop.NoMemory) }
    {
        self.reads = one_more(self.reads);
        let (before, after) = (self.before.vertex(v), self.after.vertex(v));
        Ok(Pair {
            before: label_of(before),
            after: label_of(after),
            near: near_among(alloc, before, after, among)?,
        })
    }

    /// Takes a look-up in each snapshot. The answer is the greater number of neighbours of the two.
    fn size(&mut self, v: VertexId) -> Result<usize, FetchStop>
        ensures reads { self.new.reads ≡ self.old.reads }
        ensures holds { CountsHeld 0 0 result }
        ensures before { self.new.before ≡ self.old.before }
        ensures after { self.new.after ≡ self.old.after }
        ensures memory { IfErr result (λ error. error ≡ stop.NoMemory) }
    {
        let before = degree(self.before.vertex(v));
        let after = degree(self.after.vertex(v));
        Ok(before.max(after))
    }
}

/// A count that is raised by one, where it doesn't stand at its last value.
fn one_more(count: u64) -> u64
    ensures { result ≡ next_count count }
{
    count.saturating_add(1)
}

fn label_of(vertex: Option<&Vertex>) -> Option<LabelId>
    ensures { result ≡ (seen_at vertex.entry).label }
{
    Some(vertex?.label)
}

fn cursor_of(vertex: Option<&Vertex>) -> Cursor<'_>
    ensures { result ≡ (seen_at vertex.entry).near }
{
    match vertex {
        Some(vertex) => Cursor::over(&vertex.near),
        None => Cursor::over_nothing(),
    }
}

fn degree(vertex: Option<&Vertex>) -> usize {
    match vertex {
        Some(vertex) => vertex.near.len(),
        None => 0,
    }
}

fn label_to(vertex: Option<&Vertex>, to: VertexId) -> Option<LabelId>
    ensures { result ≡ map.get (seen_at vertex.entry).near to }
{
    match vertex {
        Some(vertex) => vertex.near.get(to).copied(),
        None => None,
    }
}

/// Those of some vertices that are near before or after.
fn near_among(
    alloc: Global,
    before: Option<&Vertex>,
    after: Option<&Vertex>,
    among: &[VertexId],
) -> Result<NearList, NoMemory>
    requires { IsStrictlySortedBy nat_cmp among.now }
    ensures { IfOk result (λ near. near ≡ filter (leads_among among.now) (near_of (seen_at before.entry).near (seen_at after.entry).near)) }
{
    if among.len() < degree(before).max(degree(after)) / LOOK_UP {
        return look_up(alloc, before, after, among);
    }
    let merge = Merge::of(cursor_of(before), cursor_of(after));
    merge::list_among(alloc, merge, among)
}

/// Those of some vertices that are near before or after, with a look-up for each.
fn look_up(
    alloc: Global,
    before: Option<&Vertex>,
    after: Option<&Vertex>,
    among: &[VertexId],
) -> Result<NearList, NoMemory>
    ensures { IfOk result (λ near. near ≡ near_found (seen_at before.entry).near (seen_at after.entry).near among.now) }
{
    let mut list = NearList::new(alloc);
    for to in among {
        let near = Near {
            to: *to,
            before: label_to(before, *to),
            after: label_to(after, *to),
        };
        if near.is_joined() {
            list.push(near)?;
        }
    }
    Ok(list)
}
