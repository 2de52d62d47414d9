ghost use Rattle.std.specs.Prelude.{◌≡◌, ◌↔◌, ◌^◌, ◌<◌, ◌||◌, [], ◌∷◌, ◌++◌, length, is_some, IsTrue, IfOk, OnOk, OnErr, slice_get};
ghost use Rattle.std.specs.Iterator.Adapters.{IterYieldsInOrder};
ghost use Rattle.std.specs.Option.{option_copied};
ghost use Rattle.std.specs.Slice.Iter.{iter_rest};
ghost use Rattle.std.specs.List.Sorted.{IsStrictlySortedBy};
ghost use Rattle.std.specs.Ordering.{nat_cmp};
ghost use Rattle.graph_types.specs.calls.Finding.{FindsNear};
ghost use Rattle.graph_types.specs.storage.Ahead.{near_ends};

use crate::{LabelId, NoMemory, VertexId};
use std::alloc::Global;
use std::marker::Model;
use std::ops::DerefSlice;
use std::slice;

/// A neighbour of a vertex in one of two graphs or both, with the label of the edge between them in
/// each. `None` says that the graph has no such edge.
#[derive(Clone, Copy, Debug, Default, PartialEq, Eq)]
pub struct Near {
    pub to: VertexId,
    pub before: Option<LabelId>,
    pub after: Option<LabelId>,
}

impl Near {
    /// Whether an edge leads there in either graph.
    pub fn is_joined(&self) -> bool
        ensures { result ≡ (is_some self.now.before || is_some self.now.after) }
    {
        self.before.is_some() || self.after.is_some()
    }
}

/// Neighbours in two graphs, in an order that the call says, which contracts see as a list. They lie in
/// an allocation, so a list is moved by a few words, and takes none while it is empty. It acts as a slice
/// of them.
#[derive(Debug, Drop)]
pub struct NearList {
    items: Vec<Near>,
}

impl Model for NearList {
    ghost use Rattle.std.specs.Prelude.{List as Items};
    ghost use Rattle.graph_types.specs.declared.near.Near.{Near};

    ghost Value = { Items Near };

    ghost view = { λ l. l.items.items };
}

impl NearList {
    /// An empty list that takes its memory from `alloc`. It takes none yet.
    pub fn new(alloc: Global) -> NearList
        ensures { result ≡ [] }
    {
        NearList {
            items: Vec::new(alloc),
        }
    }

    /// An empty list with room for so many neighbours.
    pub fn with_room(alloc: Global, count: usize) -> Result<NearList, NoMemory>
        ensures { IfOk result (λ list. list ≡ []) }
    {
        Ok(NearList {
            items: Vec::with_capacity(alloc, count)?,
        })
    }

    /// Puts a neighbour at the end, in constant time on average. It takes memory where there is no room left.
    pub fn push(&mut self, near: Near) -> Result<(), NoMemory>
        ensures ok { OnOk result (self.new ≡ self.old ++ near ∷ []) }
        ensures err { OnErr result (self.new ≡ self.old) }
    {
        // Written out, since passed on as it is it gets no generated proof.
        let Near { to, before, after } = near;
        self.items.push(Near { to, before, after })?;
        Ok(())
    }

    /// How many neighbours there are.
    pub fn len(&self) -> usize
        ensures { result ≡ length self.now }
    {
        self.items.len()
    }

    /// Whether there is no neighbour.
    pub fn is_empty(&self) -> bool
        ensures { IsTrue result ↔ (self.now ≡ []) }
    {
        self.items.is_empty()
    }

    /// The neighbour at place `i`, counted from 0.
    pub fn get(&self, i: usize) -> Option<&Near>
        ensures { option_copied result ≡ slice_get self.now i }
    {
        self.items.as_slice().get(i)
    }

    /// The neighbour that is this vertex, where the neighbours ascend. It takes logarithmic time.
    pub fn find(&self, to: VertexId) -> Option<&Near>
        requires { IsStrictlySortedBy nat_cmp (near_ends self.now) }
        ensures { FindsNear to self.now (option_copied result) }
    {
        match self.as_slice().binary_search_by_key(&to, |near| near.to) {
            Ok(place) => self.get(place),
            Err(_) => None,
        }
    }

    /// All neighbours, in order.
    pub fn as_slice(&self) -> &[Near]
        ensures { result.now ≡ self.now }
    {
        self.items.as_slice()
    }

    /// Goes over the neighbours, in order.
    pub fn iter(&self) -> slice::Iter<'_, Near>
        ensures rest { iter_rest result ≡ self.now }
        ensures bound { length (iter_rest result) < 2 ^ 64 }
        ensures runs { IterYieldsInOrder Near }
    {
        self.items.as_slice().iter()
    }
}

impl DerefSlice for NearList {
    type Elem = Near;

    ghost deref_gives = { λ list items. items ≡ list };

    fn deref(&self) -> &[Near] {
        self.as_slice()
    }
}

impl<'a> IntoIterator for &'a NearList {
    ghost use Rattle.graph_types.specs.declared.near.Near.{Near};

    type Item = &'a Near;

    type IntoIter = slice::Iter<'a, Near>;

    ghost into_iter_gives = { λ list items. (iter_rest items ≡ list.now) × (length (iter_rest items) < 2 ^ 64) × IterYieldsInOrder Near };

    fn into_iter(self) -> slice::Iter<'a, Near> {
        self.iter()
    }
}
