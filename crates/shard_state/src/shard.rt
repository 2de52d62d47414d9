ghost use Rattle.std.specs.Prelude.{◌≡◌, ◌<◌, max, IfOk, OnOk, OnErr};
ghost use Rattle.std.specs.List.Sorted.{IsStrictlySortedBy};
ghost use Rattle.std.specs.Ordering.{nat_cmp};
ghost use Rattle.graph_types.specs.meaning.Neighbourhood.{kept_among};
ghost use Rattle.shard_state.specs.calls.Fitting.{Fits};
ghost use Rattle.shard_state.specs.meaning.Shards.{IsInOrder, applied, empty_shard, no_pair, pair_of_vertex, pruned};

use crate::applying::{fold_touched, note_each, reserve_each};
use crate::cells::Cells;
use crate::class::Class;
use crate::touched::Touched;
use graph_types::{List, NearList, NoMemory, Pair, Stamp, VertexId};
use std::alloc::Global;
use std::marker::Model;
use update_rules::Part;

/// The vertices whose number modulo the number of shards is that of the shard, each through time: from a floor on
/// it tells what stood at each timestamp.
///
/// Each vertex has a cell, and a list has which of them changed since the floor, so that a prune need not go
/// through the others. A look-up of a vertex takes constant time where it is below 4,194,304, and else time
/// logarithmic in the number of vertices. For the former each shard has a table, which grows with the greatest of
/// them; those of all shards together take 32 MB at most.
#[derive(Drop)]
pub struct Shard {
    class: Class,
    upto: Stamp,
    floor: Stamp,
    cells: Cells,
    touched: Touched,
}

/// Shards, in an order that the call says.
pub type ShardList = List<Shard>;

impl Model for Shard {
    ghost use Rattle.shard_state.specs.meaning.Shards.{ShardValue, shard_code};
    ghost use Rattle.shard_state.specs.storage.Cells.{entries_of};
    ghost use Rattle.shard_state.specs.storage.KeyedCells.{cells_of};
    ghost use Rattle.shard_state.specs.storage.Touched.{IsStored};

    ghost Value = { ShardValue };

    ghost coded = { shard_code };

    ghost view = { λ s. record { number = s.class.number; shards = s.class.shards; upto = s.upto; floor = s.floor; entries = entries_of (cells_of s.class s.cells) } };

    ghost invariant = { λ s. IsStored s.floor s.upto (cells_of s.class s.cells) s.touched.touches };
}

impl Shard {
    /// The shard of this number, of so many, with no vertex. It takes its memory from `alloc`, and none yet.
    pub fn empty(alloc: Global, number: u32, shards: u32) -> Shard
        requires { number < shards }
        ensures { result ≡ empty_shard number shards }
    {
        Shard {
            class: Class::new(number, shards),
            upto: Stamp(0),
            floor: Stamp(0),
            cells: Cells::new(alloc),
            touched: Touched::new(alloc),
        }
    }

    /// Its number, from 0 on.
    pub fn number(&self) -> u32
        ensures { result ≡ self.now.number }
    {
        self.class.number
    }

    /// How many shards there are.
    pub fn shards(&self) -> u32
        ensures { result ≡ self.now.shards }
    {
        self.class.shards
    }

    /// The timestamp of the last part that it took in, 0 before the first.
    pub fn upto(&self) -> Stamp
        ensures { result ≡ self.now.upto }
    {
        self.upto
    }

    /// The timestamp up to which it was pruned, 0 before the first time.
    pub fn floor(&self) -> Stamp
        ensures { result ≡ self.now.floor }
    {
        self.floor
    }

    /// Takes in what changed at its vertices at a timestamp. Out of memory leaves what it tells. Takes two look-ups
    /// for each change, and time logarithmic in the number of neighbours of its vertex. A new vertex takes two
    /// look-ups more, memory for its cell, and its part of the growth of the table.
    pub fn apply(&mut self, part: &Part, at: Stamp) -> Result<(), NoMemory>
        requires { Fits self.old part.now at }
        ensures ok { OnOk result (self.new ≡ applied self.old part.now.changes at) }
        ensures err { OnErr result (self.new ≡ self.old) }
    {
        let changes = part.changes.as_slice();
        self.touched.reserve(changes.len())?;
        reserve_each(&mut self.cells, self.class, changes)?;
        note_each(&mut self.cells, self.class, &mut self.touched, changes, at);
        self.upto = at;
        Ok(())
    }

    /// What a vertex has before and after a timestamp above the floor: its label, and its neighbours, ascending,
    /// each joined with it before or after. Takes a look-up, and time linear in the number of neighbours and in
    /// that of the changes of their edges. Only the answer takes memory.
    pub fn pair(&self, alloc: Global, v: VertexId, t: Stamp) -> Result<Pair, NoMemory>
        requires { self.now.floor < t }
        ensures { IfOk result (λ pair. pair ≡ pair_of_vertex self.now v t) }
    {
        match self.cells.get(self.class, v) {
            Some(cell) => cell.pair(alloc, t),
            None => Ok(nothing(alloc)),
        }
    }

    /// The same with those of the neighbours alone that are among some vertices. Takes two look-ups for each of
    /// these.
    pub fn pair_among(
        &self,
        alloc: Global,
        v: VertexId,
        t: Stamp,
        among: &[VertexId],
    ) -> Result<Pair, NoMemory>
        requires above { self.now.floor < t }
        requires ascending { IsStrictlySortedBy nat_cmp among.now }
        ensures { IfOk result (λ pair. pair ≡ kept_among among.now (pair_of_vertex self.now v t)) }
    {
        match self.cells.get(self.class, v) {
            Some(cell) => cell.pair_among(alloc, t, among),
            None => Ok(nothing(alloc)),
        }
    }

    /// About how many neighbours a vertex has, with a look-up. It is a hint, and promises nothing.
    pub fn size(&self, v: VertexId) -> usize {
        match self.cells.get(self.class, v) {
            Some(cell) => cell.size(),
            None => 0,
        }
    }

    /// Takes up the changes to a timestamp: the floor is the greater of both then, and what it tells from there on
    /// stays. Takes time by the number of changes of each label and edge of which it takes some up, and for each
    /// vertex of these by the number of its changed neighbours, but not by the number of vertices or of all
    /// neighbours. It takes no memory.
    pub fn prune(&mut self, f: Stamp)
        ensures pruned { self.new ≡ pruned self.old f }
        ensures one_version { IsInOrder self.new }
    {
        let floor = greater(self.floor, f);
        fold_touched(&mut self.cells, self.class, &mut self.touched, floor);
        self.floor = floor;
    }

    /// That its changes are in order, all after its floor.
    pub fn in_order(&self)
        ensures { IsInOrder self.now }
    {
        let _floor = &self.floor;
    }
}

/// What a vertex has that never was there.
fn nothing(alloc: Global) -> Pair
    ensures { result ≡ no_pair }
{
    Pair {
        before: None,
        after: None,
        near: NearList::new(alloc),
    }
}

fn greater(x: Stamp, y: Stamp) -> Stamp
    ensures { result ≡ max x y }
{
    if x < y { y } else { x }
}
