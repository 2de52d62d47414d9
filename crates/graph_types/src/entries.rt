ghost use Rattle.std.specs.Prelude.{◌≡◌, length};
ghost use Rattle.std.specs.Iterator.{at_most};
ghost use Rattle.std.specs.Map.Iter.{TakesFirst};
ghost use Rattle.graph_types.specs.calls.Entry.{entry_of};

use crate::VertexId;
use std::collections::{BTreeMap, btree_map};
use std::marker::Model;
use std::slice;

/// Goes over the neighbours of a vertex, ascending, each with its value. It takes no memory, and time
/// linear in what it gives. Contracts see the list of the neighbours that are still to come.
#[derive(Drop)]
pub struct Entries<'a, V> {
    left: Left<'a, V>,
}

#[derive(Drop)]
pub(crate) enum Left<'a, V> {
    Few(slice::Iter<'a, (VertexId, V)>),
    Many(btree_map::Iter<'a, VertexId, V>),
}

impl<'a, V> Model for Entries<'a, V> {
    ghost use Rattle.std.specs.Prelude.{ℕ, List};
    ghost use Rattle.graph_types.specs.storage.Left.{pairs_left};

    ghost Value = { List (ℕ × V) };

    ghost view = { λ e. pairs_left e.left };
}

impl<'a, V> Entries<'a, V> {
    pub(crate) fn of_few(few: &'a [(VertexId, V)]) -> Entries<'a, V>
        ensures { result ≡ few.now }
    {
        Entries {
            left: Left::Few(few.iter()),
        }
    }

    pub(crate) fn of_many(many: &'a BTreeMap<VertexId, V>) -> Entries<'a, V>
        ensures { result ≡ many.now.entries }
    {
        Entries {
            left: Left::Many(many.iter()),
        }
    }
}

impl<'a, V> Iterator for Entries<'a, V> {
    type Item = (VertexId, &'a V);

    ghost next_gives = { TakesFirst entry_of };

    ghost remaining = { λ s. at_most (length s) };

    fn next(&mut self) -> Option<(VertexId, &'a V)> {
        match &mut self.left {
            Left::Few(few) => {
                let (to, value) = few.next()?;
                Some((*to, value))
            }
            Left::Many(many) => {
                let (to, value) = many.next()?;
                Some((*to, value))
            }
        }
    }
}
