ghost use Rattle.std.specs.Prelude.{◌≡◌, length};
ghost use Rattle.std.specs.Iterator.{at_most};
ghost use Rattle.std.specs.Map.Iter.{TakesFirst};
ghost use Rattle.id_map.specs.calls.Entry.{entry_of};
ghost use Rattle.id_map.specs.storage.Items.{items_at};

use crate::walk::Walk;
use slab::Slab;
use std::marker::Model;

/// Goes over the ids of a map, ascending, each with its item. Contracts see the list of those that are
/// still to come.
#[derive(Drop)]
pub struct Iter<'a, T> {
    places: Walk<'a>,
    items: &'a Slab<T>,
}

impl<'a, T> Model for Iter<'a, T> {
    ghost use Rattle.std.specs.Prelude.{ℕ, List};
    ghost use Rattle.id_map.specs.storage.Items.{items_at};

    ghost Value = { List (ℕ × T) };

    ghost view = { λ it. items_at it.items.now it.places };
}

impl<'a, T> Iter<'a, T> {
    pub(crate) fn of(places: Walk<'a>, items: &'a Slab<T>) -> Iter<'a, T>
        ensures { result ≡ items_at items.now places.entry }
    {
        Iter { places, items }
    }
}

impl<'a, T> Iterator for Iter<'a, T> {
    type Item = (u32, &'a T);

    ghost next_gives = { TakesFirst entry_of };

    ghost remaining = { λ s. at_most (length s) };

    fn next(&mut self) -> Option<(u32, &'a T)> {
        while let Some((id, place)) = self.places.next() {
            if let Some(item) = self.items.get(place) {
                return Some((id, item));
            }
        }
        None
    }
}
