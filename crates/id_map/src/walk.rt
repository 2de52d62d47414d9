ghost use Rattle.std.specs.Prelude.{◌≡◌, ◌++◌, ◌≤◌, length, vec_len};
ghost use Rattle.std.specs.Iterator.{YieldsFirst, at_most};
ghost use Rattle.std.specs.List.Sorted.{IsStrictlySortedBy};
ghost use Rattle.std.specs.Map.{keys_of};
ghost use Rattle.std.specs.Ordering.{nat_cmp};
ghost use Rattle.id_map.specs.storage.Places.{places_from, table_bound};

use crate::near;
use std::collections::{BTreeMap, btree_map};
use std::marker::Model;
use std::slice;

/// Goes over the ids, ascending, each with its place.
#[derive(Drop)]
pub(crate) struct Walk<'a> {
    /// The id of the first entry that is left.
    id: u32,
    near: slice::Iter<'a, u32>,
    far: btree_map::Iter<'a, u32, u32>,
}

impl<'a> Model for Walk<'a> {
    ghost use Rattle.std.specs.Prelude.{ℕ, ◌+◌, ◌≤◌, List, ◌++◌, length};
    ghost use Rattle.std.specs.Slice.Iter.{iter_rest};
    ghost use Rattle.id_map.specs.storage.Places.{places_from, table_bound};

    ghost Value = { List (ℕ × ℕ) };

    ghost view = { λ w. places_from w.id (iter_rest w.near) ++ w.far };

    ghost invariant = { λ w. w.id + length (iter_rest w.near) ≤ table_bound };
}

impl<'a> Walk<'a> {
    pub fn of(near: &'a Vec<u32>, far: &'a BTreeMap<u32, u32>) -> Walk<'a>
        requires { vec_len near.now ≤ table_bound }
        ensures rest { result ≡ places_from 0 near.now.items ++ far.now.entries }
        ensures ordered { IsStrictlySortedBy nat_cmp (keys_of far.now.entries) }
    {
        Walk {
            id: 0,
            near: near.iter(),
            far: far.iter(),
        }
    }
}

impl<'a> Iterator for Walk<'a> {
    type Item = (u32, usize);

    ghost next_gives = { YieldsFirst (λ s. s) };

    ghost remaining = { λ s. at_most (length s) };

    fn next(&mut self) -> Option<(u32, usize)> {
        while let Some(entry) = self.near.next() {
            let id = self.id;
            self.id += 1;
            if let Some(place) = near::told(*entry) {
                return Some((id, place));
            }
        }
        let (id, place) = self.far.next()?;
        Some((*id, *place as usize))
    }
}
