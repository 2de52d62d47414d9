ghost use Rattle.std.specs.Prelude.{◌≡◌, ◌<◌, ◌↔◌, None, Some, IsTrue, OnOk, OnErr, IfOk, OnSome, MatchOption};
ghost use Rattle.std.specs.BTreeMap.{IsFromIterResult};
ghost use Rattle.std.specs.FinMap as map;
ghost use Rattle.std.specs.Map.Iter.{ShowsInOrder};
ghost use Rattle.std.specs.Option.{option_copied};
ghost use Rattle.std.specs.Ordering.{nat_cmp};
ghost use Rattle.graph_types.specs.calls.Entry.{entry_of};

use crate::entries::Entries;
use crate::few::{self, Short};
use crate::{NoMemory, VertexId};
use std::alloc::{AllocError, Global};
use std::collections::BTreeMap;
use std::marker::Model;

/// So many neighbours lie in a list at most. More lie in an ordered map, and stay there when they get
/// fewer, so that a vertex at the bound isn't moved again and again.
const FEW: usize = 32;

// Each call may go through a whole list.
const _: () = prove!(FEW <= 64);

/// The neighbours of one vertex, each with a value. Contracts see the map from each neighbour to its
/// value.
///
/// A few lie in a short list, more in an ordered map. So a look-up takes time logarithmic in their
/// number, and linear in the bound of the short list alone.
#[derive(Debug, Drop)]
pub struct Neighbours<V> {
    kept: Kept<V>,
}

#[derive(Debug, Drop)]
pub(crate) enum Kept<V> {
    Few(Short<V>),
    Many(BTreeMap<VertexId, V>),
}

impl<V> Model for Neighbours<V> {
    ghost use Rattle.std.specs.Prelude.{ℕ};
    ghost use Rattle.std.specs.Coded.{coded_ℕ};
    ghost use Rattle.std.specs.Ordering.{nat_cmp};
    ghost use Rattle.std.specs.FinMap as map;
    ghost use Rattle.graph_types.specs.storage.Few.{IsAscending};
    ghost use Rattle.graph_types.specs.storage.Kept.{map_of, pairs_of};

    ghost Value = { map.FinMap nat_cmp V };

    ghost coded = { map.code coded_ℕ V.code };

    ghost view = { λ n. map_of n.kept };

    ghost invariant = { λ n. IsAscending (pairs_of n.kept) };
}

impl<V> Neighbours<V> {
    /// No neighbours. It takes its memory from `alloc`, and none yet.
    pub fn new(alloc: Global) -> Neighbours<V>
        ensures { result ≡ map.empty }
    {
        Neighbours {
            kept: Kept::Few(Vec::new(alloc)),
        }
    }

    /// How many neighbours there are, in constant time.
    pub fn len(&self) -> usize
        ensures { result ≡ map.len self.now }
    {
        match &self.kept {
            Kept::Few(few) => few.len(),
            Kept::Many(many) => many.len(),
        }
    }

    /// Whether there is no neighbour.
    pub fn is_empty(&self) -> bool
        ensures { IsTrue result ↔ (self.now ≡ map.empty) }
    {
        self.len() == 0
    }

    /// The value of a neighbour, or `None` where it isn't there. Takes time logarithmic in their number.
    pub fn get(&self, to: VertexId) -> Option<&V>
        ensures { option_copied result ≡ map.get self.now to }
    {
        match &self.kept {
            Kept::Few(few) => few::get(few, to),
            Kept::Many(many) => many.get(&to),
        }
    }

    /// Goes over the neighbours, ascending, each with its value. It takes no memory, and time linear in
    /// what it gives.
    pub fn iter(&self) -> Entries<'_, V>
        ensures rest { result ≡ map.entries self.now }
        ensures runs { ShowsInOrder (entry_of {V = V}) }
    {
        match &self.kept {
            Kept::Few(few) => Entries::of_few(few),
            Kept::Many(many) => Entries::of_many(many),
        }
    }

    /// Takes a neighbour out, if it is there, and gives its value back. Takes time logarithmic in their
    /// number, and no memory.
    pub fn take(&mut self, to: VertexId) -> Option<V>
        ensures taken { result ≡ map.get self.old to }
        ensures rest { self.new ≡ map.remove self.old to }
    {
        match &mut self.kept {
            Kept::Few(few) => few::take(few, to),
            Kept::Many(many) => many.remove(&to),
        }
    }

    /// Takes some neighbour out with its value, or answers `None` where there is none. Takes time
    /// logarithmic in their number, and no memory.
    pub fn pop(&mut self) -> Option<(VertexId, V)>
        ensures taken { MatchOption result
            ((self.old ≡ map.empty) × (self.new ≡ map.empty))
            (λ n. (map.get self.old n.0 ≡ Some n.1) × (self.new ≡ map.remove self.old n.0)) }
        ensures fewer { OnSome result (map.len self.new < map.len self.old) }
    {
        let to = self.last()?;
        let value = self.take(to)?;
        Some((to, value))
    }

    fn last(&self) -> Option<VertexId>
        ensures { MatchOption result (self.now ≡ map.empty) (λ v. IsTrue (map.contains_key self.now v)) }
    {
        match &self.kept {
            Kept::Few(few) => {
                let (v, _) = few.last()?;
                Some(*v)
            }
            Kept::Many(many) => {
                let (v, _) = many.last_key_value()?;
                Some(*v)
            }
        }
    }
}

impl<V: Copy> Neighbours<V> {
    /// Puts a neighbour in, or gives it another value. Only a new neighbour takes memory; out of memory
    /// leaves the neighbours as they were. Takes time logarithmic in their number, where no list is
    /// moved into a map, and else linear in the bound of the short list.
    pub fn put(&mut self, to: VertexId, value: V) -> Result<(), NoMemory>
        ensures ok { OnOk result (self.new ≡ map.insert self.old to value) }
        ensures err { OnErr result (self.new ≡ self.old) }
        ensures was_new { OnErr result (map.get self.old to ≡ None) }
    {
        self.make_room(to)?;
        self.put_as_kept(to, value)?;
        Ok(())
    }

    /// Moves a full list into a map, where the neighbour is new.
    fn make_room(&mut self, to: VertexId) -> Result<(), NoMemory>
        ensures same { self.new ≡ self.old }
        ensures was_new { OnErr result (map.get self.old to ≡ None) }
    {
        if let Kept::Few(few) = &self.kept
            && few.len() >= FEW
            && few::get(few, to).is_none()
        {
            let many = to_map(*few.allocator(), few)?;
            self.kept = Kept::Many(many);
        }
        Ok(())
    }

    fn put_as_kept(&mut self, to: VertexId, value: V) -> Result<(), NoMemory>
        ensures ok { OnOk result (self.new ≡ map.insert self.old to value) }
        ensures err { OnErr result (self.new ≡ self.old) }
        ensures was_new { OnErr result (map.get self.old to ≡ None) }
    {
        match &mut self.kept {
            Kept::Few(few) => few::put(few, to, value)?,
            Kept::Many(many) => {
                many.insert(to, value)?;
            }
        }
        Ok(())
    }
}

impl<'a, V> IntoIterator for &'a Neighbours<V> {
    type Item = (VertexId, &'a V);

    type IntoIter = Entries<'a, V>;

    ghost into_iter_gives = { λ near entries. (entries ≡ map.entries near.now) × ShowsInOrder (entry_of {V = V}) };

    fn into_iter(self) -> Entries<'a, V> {
        self.iter()
    }
}

fn to_map<V: Copy>(
    alloc: Global,
    few: &[(VertexId, V)],
) -> Result<BTreeMap<VertexId, V>, AllocError>
    ensures { IfOk result (λ many. IsFromIterResult nat_cmp few.now many) }
{
    few.iter().copied().collect(alloc)
}
