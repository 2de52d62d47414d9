ghost use Rattle.std.specs.Prelude.{◌≡◌, IfOk, OnOk, OnErr};
ghost use Rattle.std.specs.Borrow.{sem};
ghost use Rattle.std.specs.FinMap as map;
ghost use Rattle.std.specs.Map.Iter.{ShowsInOrder};
ghost use Rattle.std.specs.Option.{option_copied, option_copied_mut};
ghost use Rattle.id_map.specs.calls.Entry.{entry_of};

use crate::iter::Iter;
use crate::places::Places;
use slab::Slab;
use std::alloc::{AllocError, Global};
use std::marker::Model;
use std::mem;

/// A map from ids to items, in the order of the ids. Contracts see the finite map.
///
/// The items lie side by side, each at a place that is used again once its item is taken out. The place of
/// an id below 4,194,304 stands in a plain table, which grows with the greatest such id to 16 MB at most;
/// that of any other id stands in an ordered map. So a call takes constant time for usual ids, and time
/// logarithmic in the number of items for any, whatever ids come and in whatever order: nothing is hashed.
#[derive(Debug, Drop)]
pub struct IdMap<T> {
    places: Places,
    items: Slab<T>,
}

impl<T> Model for IdMap<T> {
    ghost use Rattle.std.specs.Coded.{coded_ℕ};
    ghost use Rattle.std.specs.FinMap as map;
    ghost use Rattle.std.specs.Ordering.{nat_cmp};
    ghost use Rattle.id_map.specs.storage.Items.{IsPlaced, all_items};

    ghost Value = { map.FinMap nat_cmp T };

    ghost coded = { map.code coded_ℕ T.code };

    ghost view = { λ m. all_items m.items m.places };

    ghost invariant = { λ m. IsPlaced m.items m.places };
}

impl<T> IdMap<T> {
    ghost use Rattle.id_map.specs.calls.Lends.{lends_item};

    /// No items. It takes its memory from `alloc`, and none yet.
    pub fn new(alloc: Global) -> IdMap<T>
        ensures { result ≡ map.empty }
    {
        IdMap {
            places: Places::new(alloc),
            items: Slab::new(alloc),
        }
    }

    /// The item of an id, or `None` where it has none. Takes constant time for an id below 4,194,304, and
    /// else time logarithmic in the number of items.
    pub fn get(&self, id: u32) -> Option<&T>
        ensures { option_copied result ≡ map.get self.now id }
    {
        let place = self.places.get(id)?;
        self.items.get(place)
    }

    /// The item of an id for writing, or `None` where it has none. Takes time as `get`.
    pub fn get_mut(&mut self, id: u32) -> Option<&mut T>
        ensures* writes_back { sem 𝓛 (lends_item T.row self.entry id result) }
        ensures value { option_copied_mut result ≡ map.get self.old id }
    {
        let place = self.places.get(id)?;
        self.items.get_mut(place)
    }

    /// Takes the item of an id out, if it has one. Takes time as `get`, and no memory.
    pub fn remove(&mut self, id: u32) -> Option<T>
        ensures value { result ≡ map.get self.old id }
        ensures rest { self.new ≡ map.remove self.old id }
    {
        let place = self.places.take(id)?;
        self.items.try_remove(place)
    }

    /// Goes over the ids, ascending, each with its item. Takes no memory, and time linear in the number of
    /// items and in the length of the table, which is at most one more than twice the greatest id below
    /// 4,194,304 that was ever put.
    pub fn iter(&self) -> Iter<'_, T>
        ensures rest { result ≡ map.entries self.now }
        ensures runs { ShowsInOrder (entry_of {T = T}) }
    {
        Iter::of(self.places.iter(), &self.items)
    }
}

impl<T: Drop> IdMap<T> {
    /// Gives an id an item, and hands back the one that it had. Only a new id takes memory; out of memory
    /// leaves the map as it was. A 4,294,967,296th item counts as out of memory too, since no place is left
    /// for it.
    ///
    /// Takes time as `get`. A new id may make the table grow, which in all takes no more than to fill its
    /// 16 MB and to copy as much.
    pub fn insert(&mut self, id: u32, item: T) -> Result<Option<T>, AllocError>
        ensures old { IfOk result (λ old. old ≡ map.get self.old id) }
        ensures ok { OnOk result (self.new ≡ map.insert self.old id item) }
        ensures err { OnErr result (self.new ≡ self.old) }
    {
        if let Some(old) = self.get_mut(id) {
            return Ok(Some(mem::replace(old, item)));
        }
        self.add(id, item)?;
        Ok(None)
    }

    fn add(&mut self, id: u32, item: T) -> Result<(), AllocError>
        requires { map.get self.old id ≡ None }
        ensures ok { OnOk result (self.new ≡ map.insert self.old id item) }
        ensures err { OnErr result (self.new ≡ self.old) }
    {
        self.items.reserve(1)?;
        self.places.put(id, self.items.vacant_key())?;
        self.items.insert_reserved(item);
        Ok(())
    }
}

impl<'a, T> IntoIterator for &'a IdMap<T> {
    type Item = (u32, &'a T);

    type IntoIter = Iter<'a, T>;

    ghost into_iter_gives = { λ items iter. (iter ≡ map.entries items.now) × ShowsInOrder (entry_of {T = T}) };

    fn into_iter(self) -> Iter<'a, T> {
        self.iter()
    }
}
