ghost use Rattle.std.specs.Prelude.{◌≡◌, ◌<◌, IfOk};
ghost use Rattle.std.specs.FinMap as map;
ghost use Rattle.std.specs.List.Sorted.{IsStrictlySortedBy};
ghost use Rattle.std.specs.Map.{keys_of};
ghost use Rattle.std.specs.Option.{option_copied};
ghost use Rattle.std.specs.Ordering.{nat_cmp};
ghost use Rattle.version_cell.specs.storage.Around.{edge_with, near_of_vertices, near_of_places};
ghost use Rattle.version_cell.specs.storage.Merging.{first_at, left_after};
ghost use Rattle.version_cell.specs.storage.Places.{HavePlaces};

use crate::changes::Changes;
use crate::places::floor_label;
use crate::tracks::near_around;
use graph_types::{LabelId, Near, NearList, Neighbours, NoMemory, Stamp, VertexId};
use std::alloc::Global;
use std::collections::{BTreeMap, btree_map};
use std::marker::Model;

/// The edges that are there before or after a timestamp, ascending by the vertices to which they lead. It goes
/// over places and changes once, and takes its memory at once.
pub(crate) fn list(
    alloc: Global,
    places: &Neighbours<Option<LabelId>>,
    changes: &BTreeMap<VertexId, Changes>,
    t: Stamp,
) -> Result<NearList, NoMemory>
    requires after_floor { 0 < t }
    requires have_places { HavePlaces (map.from_entries {R = nat_cmp} changes.now.entries) places.now }
    ensures { IfOk result (λ near. near ≡ near_of_places (map.from_entries changes.now.entries) t (map.entries places.now)) }
{
    let mut list = NearList::with_room(alloc, places.len())?;
    let mut later = Later::of(changes);
    for (to, at_floor) in places {
        let near = later.near_around(to, at_floor, t);
        if near.is_joined() {
            list.push(near)?;
        }
    }
    Ok(list)
}

/// Lists of changes that are gone over in the order of their vertices.
#[derive(Drop)]
struct Later<'a> {
    next: Option<(&'a VertexId, &'a Changes)>,
    rest: btree_map::Iter<'a, VertexId, Changes>,
}

impl<'a> Model for Later<'a> {
    ghost use Rattle.std.specs.Prelude.{ℕ, List};
    ghost use Rattle.version_cell.specs.meaning.Changes.{Track};
    ghost use Rattle.version_cell.specs.storage.Merging.{with_next};

    ghost Value = { List (ℕ × Track) };

    ghost view = { λ l. with_next l.next l.rest };
}

impl<'a> Later<'a> {
    /// All lists of a map.
    fn of(changes: &'a BTreeMap<VertexId, Changes>) -> Later<'a>
        ensures all { result ≡ changes.now.entries }
        ensures ascending { IsStrictlySortedBy nat_cmp (keys_of changes.now.entries) }
    {
        Later {
            next: None,
            rest: changes.iter(),
        }
    }

    /// The edge to a vertex before and after a timestamp, from its label at the floor, and from its changes
    /// where they are the next ones. It goes past these.
    fn near_around(&mut self, to: VertexId, at_floor: &Option<LabelId>, t: Stamp) -> Near
        requires { 0 < t }
        ensures near { result ≡ edge_with (first_at to self.old) t (to, at_floor.now) }
        ensures left { self.new ≡ left_after to self.old }
    {
        match self.take(to) {
            Some(changes) => changes.around(to, at_floor, t),
            None => Near {
                to,
                before: *at_floor,
                after: *at_floor,
            },
        }
    }

    /// Takes out the next list, where it is that of this vertex.
    fn take(&mut self, to: VertexId) -> Option<&'a Changes>
        ensures first { option_copied result ≡ first_at to self.old }
        ensures left { self.new ≡ left_after to self.old }
    {
        if self.next.is_none() {
            self.next = self.rest.next();
        }
        let (vertex, changes) = self.next?;
        if *vertex != to {
            return None;
        }
        self.next = None;
        Some(changes)
    }
}

/// Those of the edges to some vertices that are there before or after a timestamp, with a look-up for each.
pub(crate) fn list_among(
    alloc: Global,
    places: &Neighbours<Option<LabelId>>,
    changes: &BTreeMap<VertexId, Changes>,
    t: Stamp,
    among: &[VertexId],
) -> Result<NearList, NoMemory>
    requires { 0 < t }
    ensures { IfOk result (λ near. near ≡ near_of_vertices (map.from_entries changes.now.entries) t places.now among.now) }
{
    let mut list = NearList::new(alloc);
    for to in among {
        let at_floor = floor_label(places, *to);
        let near = near_around(changes, *to, &at_floor, t);
        if near.is_joined() {
            list.push(near)?;
        }
    }
    Ok(list)
}
