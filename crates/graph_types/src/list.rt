ghost use Rattle.std.specs.Prelude.{◌≡◌, ◌↔◌, ◌^◌, ◌<◌, List as Items, [], ◌∷◌, ◌++◌, length, IsTrue, IfOk, OnOk, IfErr, OnErr, MatchOption, slice_get};
ghost use Rattle.std.specs.Iterator.Adapters.{IterYieldsInOrder};
ghost use Rattle.std.specs.Option.{option_copied};
ghost use Rattle.std.specs.Slice.Iter.{iter_rest};

use std::alloc::{AllocError, AllocFailed, Global};
use std::marker::Model;
use std::ops::DerefSlice;
use std::slice;

/// A vector that contracts see as the list of its items, however much room it has beside them. It acts
/// as a slice of them.
#[derive(Debug, Drop)]
pub struct List<T> {
    items: Vec<T>,
}

impl<T> Model for List<T> {
    ghost use Rattle.std.specs.Prelude.{List as Items};

    ghost Value = { Items T };

    ghost view = { λ l. l.items.items };
}

impl<T> List<T> {
    /// An empty list that takes its memory from `alloc`. It takes none yet.
    pub fn new(alloc: Global) -> List<T>
        ensures { result ≡ [] }
    {
        List {
            items: Vec::new(alloc),
        }
    }

    /// Puts an item at the end, in constant time on average. Out of memory hands the item back.
    pub fn push(&mut self, item: T) -> Result<(), AllocFailed<T>>
        ensures ok { OnOk result (self.new ≡ self.old ++ item ∷ []) }
        ensures err { OnErr result (self.new ≡ self.old) }
        ensures handed_back { IfErr result (λ e. e.value ≡ item) }
    {
        self.items.push(item)
    }

    /// Takes the last item out.
    pub fn pop(&mut self) -> Option<T>
        ensures { MatchOption result ((self.old ≡ []) × (self.new ≡ [])) (λ item. self.old ≡ self.new ++ item ∷ []) }
    {
        self.items.pop()
    }

    /// How many items there are.
    pub fn len(&self) -> usize
        ensures { result ≡ length self.now }
    {
        self.items.len()
    }

    /// Whether there is no item.
    pub fn is_empty(&self) -> bool
        ensures { IsTrue result ↔ (self.now ≡ []) }
    {
        self.items.is_empty()
    }

    /// The item at place `i`, counted from 0.
    pub fn get(&self, i: usize) -> Option<&T>
        ensures { option_copied result ≡ slice_get self.now i }
    {
        self.items.get(i)
    }

    /// All items, in order.
    pub fn as_slice(&self) -> &[T]
        ensures { result.now ≡ self.now }
    {
        self.items.as_slice()
    }

    /// Goes over the items, in order.
    pub fn iter(&self) -> slice::Iter<'_, T>
        ensures rest { iter_rest result ≡ self.now }
        ensures bound { length (iter_rest result) < 2 ^ 64 }
        ensures runs { IterYieldsInOrder T }
    {
        self.items.as_slice().iter()
    }
}

impl<T: Copy> List<T> {
    /// A list of copies of the items. Takes time linear in their number.
    pub fn from_slice(alloc: Global, items: &[T]) -> Result<List<T>, AllocError>
        ensures { IfOk result (λ list. list ≡ items.now) }
    {
        Ok(List {
            items: Vec::from_slice(alloc, items)?,
        })
    }

    /// Puts copies of the items at the end, all of them or, out of memory, none. Takes time linear in
    /// their number on average.
    pub fn extend_from_slice(&mut self, items: &[T]) -> Result<(), AllocError>
        ensures ok { OnOk result (self.new ≡ self.old ++ items.now) }
        ensures err { OnErr result (self.new ≡ self.old) }
    {
        self.items.extend_from_slice(items)
    }
}

impl<T> DerefSlice for List<T> {
    type Elem = T;

    ghost deref_gives = { λ list items. items ≡ list };

    fn deref(&self) -> &[T] {
        self.as_slice()
    }
}

impl<'a, T> IntoIterator for &'a List<T> {
    type Item = &'a T;

    type IntoIter = slice::Iter<'a, T>;

    ghost into_iter_gives = { λ list items. (iter_rest items ≡ list.now) × (length (iter_rest items) < 2 ^ 64) × IterYieldsInOrder T };

    fn into_iter(self) -> slice::Iter<'a, T> {
        self.iter()
    }
}
