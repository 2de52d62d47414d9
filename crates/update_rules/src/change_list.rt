ghost use Rattle.std.specs.Prelude.{◌≡◌, ◌↔◌, ◌^◌, ◌<◌, [], ◌∷◌, ◌++◌, length, IsTrue, OnOk, OnErr};
ghost use Rattle.std.specs.Iterator.Adapters.{IterYieldsInOrder};
ghost use Rattle.std.specs.Slice.Iter.{iter_rest};

use crate::Change;
use graph_types::{NoMemory, VertexId};
use smallvec::SmallVec;
use std::alloc::Global;
use std::default::MadeWith;
use std::marker::Model;
use std::ops::DerefSlice;
use std::slice;

/// How many changes lie in a list itself: those of an edge, which most updates come to.
const INLINE: usize = 2;

/// Changes, in an order that the call says, which contracts see as a list. Two lie in the value itself,
/// more in an allocation. It acts as a slice of them.
#[derive(Debug, Drop)]
pub struct ChangeList {
    items: SmallVec<Change, INLINE>,
}

impl Model for ChangeList {
    ghost use Rattle.std.specs.Prelude.{List as Items};
    ghost use Rattle.update_rules.specs.declared.changes.Change.{Change};

    ghost Value = { Items Change };

    ghost view = { λ l. l.items.items };
}

impl ChangeList {
    /// An empty list. It takes its memory from `alloc`, and none before the third change.
    pub fn new(alloc: Global) -> ChangeList
        ensures { result ≡ [] }
    {
        ChangeList {
            items: SmallVec::new(alloc),
        }
    }

    /// A list of one change. It takes no memory.
    pub fn of_one(alloc: Global, change: &Change) -> ChangeList
        ensures { result ≡ change.now ∷ [] }
    {
        ChangeList {
            items: SmallVec::from_buf_and_len(alloc, [*change, *change], 1),
        }
    }

    /// A list of two changes. It takes no memory.
    pub fn of_two(alloc: Global, first: &Change, second: &Change) -> ChangeList
        ensures { result ≡ first.now ∷ second.now ∷ [] }
    {
        ChangeList {
            items: SmallVec::from_buf(alloc, [*first, *second]),
        }
    }

    /// Puts a change at the end, in constant time on average. Only from the third on it takes memory.
    pub fn push(&mut self, change: Change) -> Result<(), NoMemory>
        ensures ok { OnOk result (self.new ≡ self.old ++ change ∷ []) }
        ensures err { OnErr result (self.new ≡ self.old) }
    {
        // As a slice, since passed on as it is it gets no generated proof.
        self.items.extend_from_slice(slice::from_ref(&change))?;
        Ok(())
    }

    /// How many changes there are.
    pub fn len(&self) -> usize
        ensures { result ≡ length self.now }
    {
        self.items.len()
    }

    /// Whether there is no change.
    pub fn is_empty(&self) -> bool
        ensures { IsTrue result ↔ (self.now ≡ []) }
    {
        self.items.is_empty()
    }

    /// All changes, in order.
    pub fn as_slice(&self) -> &[Change]
        ensures { result.now ≡ self.now }
    {
        self.items.as_slice()
    }

    /// Goes over the changes, in order.
    pub fn iter(&self) -> slice::Iter<'_, Change>
        ensures rest { iter_rest result ≡ self.now }
        ensures bound { length (iter_rest result) < 2 ^ 64 }
        ensures runs { IterYieldsInOrder Change }
    {
        self.items.as_slice().iter()
    }
}

/// What lies in a place that no change has yet.
impl MadeWith<Global> for Change {
    fn made_with(_alloc: Global) -> Change {
        Change::Label {
            vertex: VertexId(0),
            label: None,
        }
    }
}

impl DerefSlice for ChangeList {
    type Elem = Change;

    ghost deref_gives = { λ list items. items ≡ list };

    fn deref(&self) -> &[Change] {
        self.as_slice()
    }
}

impl<'a> IntoIterator for &'a ChangeList {
    ghost use Rattle.update_rules.specs.declared.changes.Change.{Change};

    type Item = &'a Change;

    type IntoIter = slice::Iter<'a, Change>;

    ghost into_iter_gives = { λ list items. (iter_rest items ≡ list.now) × (length (iter_rest items) < 2 ^ 64) × IterYieldsInOrder Change };

    fn into_iter(self) -> slice::Iter<'a, Change> {
        self.iter()
    }
}
