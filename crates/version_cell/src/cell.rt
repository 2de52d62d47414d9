ghost use Rattle.std.specs.Prelude.{◌≡◌, ◌<◌, ◌↔◌, ℕ, max, [], IsTrue, IfOk, OnOk};
ghost use Rattle.std.specs.FinMap as map;
ghost use Rattle.std.specs.List.Sorted.{IsStrictlySortedBy};
ghost use Rattle.std.specs.Ordering.{nat_cmp};
ghost use Rattle.graph_types.specs.meaning.Neighbourhood.{kept_among};
ghost use Rattle.version_cell.specs.calls.Changing.{IsFolded, KeepsVersions, with_label_change, with_near_change};
ghost use Rattle.version_cell.specs.meaning.Cell.{HasNothing, changes_of, pair_at, room_of};
ghost use Rattle.version_cell.specs.meaning.Changes.{IsAfterLast};
ghost use Rattle.version_cell.specs.meaning.Floor.{IsAboveFloor};

use crate::changes::{Changes, previous};
use crate::{Change, listing, places, tracks};
use graph_types::{LabelId, Neighbours, NoMemory, Pair, Stamp, VertexId};
use std::alloc::Global;
use std::collections::BTreeMap;
use std::marker::Model;

/// One vertex through time: its label and its edges as they stood at a floor, and what became of them at
/// later timestamps.
///
/// The neighbours lie as those of a `Snapshot` do. Each that changed since the floor has a list of its
/// changes beside them, which goes with the fold that takes the last of it up.
#[derive(Drop)]
pub struct Cell {
    floor: Stamp,
    label: Option<LabelId>,
    places: Neighbours<Option<LabelId>>,
    label_changes: Changes,
    near_changes: BTreeMap<VertexId, Changes>,
    alloc: Global,
}

impl Model for Cell {
    ghost use Rattle.std.specs.Ordering.{nat_cmp};
    ghost use Rattle.std.specs.FinMap as map;
    ghost use Rattle.version_cell.specs.meaning.Cell.{Timeline, timeline_code};
    ghost use Rattle.version_cell.specs.storage.Places.{HavePlaces, near_at_floor};

    ghost Value = { Timeline };

    ghost coded = { timeline_code };

    ghost view = { λ c. record {
      floor = c.floor;
      at_floor = record { label = c.label; near = near_at_floor c.places };
      label = c.label_changes;
      near = map.from_entries {R = nat_cmp} c.near_changes.entries;
    } };

    ghost invariant = { λ c. HavePlaces (map.from_entries {R = nat_cmp} c.near_changes.entries) c.places };
}

impl Cell {
    /// A vertex that was never there, with floor 0. It takes its memory from `alloc`, and none yet.
    pub fn new(alloc: Global) -> Cell
        ensures floor { result.floor ≡ 0 }
        ensures at_floor { result.at_floor ≡ record { label = None; near = map.empty } }
        ensures label { result.label.changes ≡ [] }
        ensures near { result.near ≡ map.empty }
    {
        Cell {
            floor: Stamp(0),
            label: None,
            places: Neighbours::new(alloc),
            label_changes: Changes::new(alloc),
            near_changes: BTreeMap::new(alloc),
            alloc,
        }
    }

    /// The timestamp up to which changes are taken up.
    pub fn floor(&self) -> Stamp
        ensures { result ≡ self.now.floor }
    {
        self.floor
    }

    /// Makes the next change of the label one that takes no memory. Out of memory leaves the versions.
    pub fn reserve_label(&mut self) -> Result<(), NoMemory>
        ensures kept { KeepsVersions self.old self.new }
        ensures ok { OnOk result (0 < self.new.label.room) }
    {
        self.label_changes.reserve()
    }

    /// Makes the next change of the edge to a vertex one that takes no memory. Out of memory leaves the
    /// versions. Takes time logarithmic in the number of neighbours.
    pub fn reserve_near(&mut self, to: VertexId) -> Result<(), NoMemory>
        ensures kept { KeepsVersions self.old self.new }
        ensures ok { OnOk result (0 < room_of (map.get self.new.near to)) }
    {
        if tracks::reserve_known(&mut self.near_changes, to)? {
            return Ok(());
        }
        places::give_place(&mut self.places, to)?;
        tracks::give_track(&mut self.near_changes, to, self.alloc)
    }

    /// Notes what the label became at a timestamp. It takes no memory, and constant time.
    pub fn set_label(&mut self, at: Stamp, label: Option<LabelId>)
        requires reserved { 0 < self.old.label.room }
        requires above { self.old.floor < at }
        requires later { IsAfterLast self.old.label.changes at }
        ensures { self.new ≡ with_label_change self.old (record { at = at; label = label }) }
    {
        self.label_changes.push(Change { at, label });
    }

    /// Notes what the edge to a vertex became at a timestamp. It takes no memory, and time logarithmic in
    /// the number of changed neighbours.
    pub fn set_near(&mut self, at: Stamp, to: VertexId, label: Option<LabelId>)
        requires reserved { 0 < room_of (map.get self.old.near to) }
        requires above { self.old.floor < at }
        requires later { IsAfterLast (changes_of (map.get self.old.near to)) at }
        ensures { self.new ≡ with_near_change self.old to (record { at = at; label = label }) }
    {
        let Some(changes) = self.near_changes.get_mut(&to) else {
            unreachable!()
        };
        changes.push(Change { at, label });
    }

    /// What the vertex has before and after a timestamp above the floor: its label, and its neighbours,
    /// ascending, each joined with it before or after. Takes time linear in the number of places and in that
    /// of the changes up to then. Only the answer takes memory.
    pub fn pair(&self, alloc: Global, t: Stamp) -> Result<Pair, NoMemory>
        requires { self.now.floor < t }
        ensures { IfOk result (λ pair. pair ≡ pair_at self.now t) }
    {
        Ok(Pair {
            before: self.label_changes.label_after(self.label, previous(t)),
            after: self.label_changes.label_after(self.label, t),
            near: listing::list(alloc, &self.places, &self.near_changes, t)?,
        })
    }

    /// The same with those of the neighbours alone that are among some vertices. Takes two look-ups for each
    /// of these, and time linear in the number of changes of their edges and of the label up to then.
    pub fn pair_among(&self, alloc: Global, t: Stamp, among: &[VertexId]) -> Result<Pair, NoMemory>
        requires above { self.now.floor < t }
        requires ascending { IsStrictlySortedBy nat_cmp among.now }
        ensures { IfOk result (λ pair. pair ≡ kept_among among.now (pair_at self.now t)) }
    {
        Ok(Pair {
            before: self.label_changes.label_after(self.label, previous(t)),
            after: self.label_changes.label_after(self.label, t),
            near: listing::list_among(alloc, &self.places, &self.near_changes, t, among)?,
        })
    }

    /// About how many neighbours there are, in constant time: those at the floor and those that changed
    /// since, whether an edge leads there now or not. It is a hint, and promises nothing.
    pub fn size(&self) -> usize {
        self.places.len()
    }

    /// Whether nothing stands in it and nothing changed, and no room was made for an edge. Takes constant time
    /// where that is so, or where the vertex has a label or changed.
    pub fn is_empty(&self) -> bool
        ensures { IsTrue result ↔ HasNothing self.now }
    {
        if self.label.is_some() || self.label_changes.has_some() {
            return false;
        }
        self.near_changes.is_empty() && places::has_no_edge(&self.places)
    }

    /// Takes up the changes to a timestamp: the floor is the greater of both then, and what stands after the
    /// floor, and at each later timestamp, is what it was. Of what came before nothing is kept. It takes no
    /// memory. Takes time linear in the number of the changes of the label and of each edge of which it takes
    /// some up, and of the neighbours that changed since the floor, each with a look-up, but not in the number of
    /// all neighbours. What was reserved, and not used, may go.
    pub fn fold_to(&mut self, t: Stamp)
        ensures folded { IsFolded self.old t self.new }
        ensures pairs { (later : ℕ) → max self.old.floor t < later → pair_at self.new later ≡ pair_at self.old later }
        ensures one_version { IsAboveFloor self.old → IsAboveFloor self.new }
    {
        let floor = greater(self.floor, t);
        self.label = self.label_changes.fold_to(self.label, floor);
        places::fold_places(&mut self.places, &self.near_changes, floor);
        tracks::forget_to(&mut self.near_changes, floor);
        self.floor = floor;
    }
}

fn greater(x: Stamp, y: Stamp) -> Stamp
    ensures { result ≡ max x y }
{
    if x < y { y } else { x }
}
