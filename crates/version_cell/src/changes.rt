ghost use Rattle.std.specs.Prelude.{◌≡◌, ◌-◌, ◌<◌, ◌≤◌, [], Some, OnOk};
ghost use Rattle.version_cell.specs.meaning.Changes.{changes_after, label_after, with_change};
ghost use Rattle.version_cell.specs.storage.Around.{edge_with};
ghost use Rattle.version_cell.specs.storage.Due.{due_count};
ghost use Rattle.version_cell.specs.storage.Tracks.{is_changed};

use crate::Change;
use graph_types::{LabelId, Near, NoMemory, Stamp, VertexId};
use smallvec::SmallVec;
use std::alloc::Global;
use std::default::MadeWith;
use std::marker::Model;

/// How many changes lie in a list itself.
const INLINE: usize = 1;

/// The changes of a label above a floor, in the order of their timestamps. One lies in the value itself, more
/// in an allocation.
#[derive(Drop)]
pub(crate) struct Changes {
    items: SmallVec<Change, INLINE>,
}

impl Model for Changes {
    ghost use Rattle.std.specs.Prelude.{◌-◌};
    ghost use Rattle.smallvec.specs.SmallVec.{small_vec_len};
    ghost use Rattle.version_cell.specs.meaning.Changes.{Track};

    ghost Value = { Track };

    ghost view = { λ c. record { changes = c.items.items; room = c.items.capacity - small_vec_len c.items } };
}

impl Changes {
    /// No changes, and room for one.
    pub fn new(alloc: Global) -> Changes
        ensures { result.changes ≡ [] }
    {
        Changes {
            items: SmallVec::new(alloc),
        }
    }

    /// Makes room for one more change, where there is none. It takes memory only beside a change that is there.
    pub fn reserve(&mut self) -> Result<(), NoMemory>
        ensures same { self.new.changes ≡ self.old.changes }
        ensures kept { self.old.room ≤ self.new.room }
        ensures ok { OnOk result (0 < self.new.room) }
    {
        self.items.reserve(1)?;
        Ok(())
    }

    /// Notes a change after all others. It takes no memory.
    pub fn push(&mut self, change: Change)
        requires { 0 < self.old.room }
        ensures { self.new ≡ with_change self.old change }
    {
        // Written out, since passed on as it is it gets no generated proof.
        let Change { at, label } = change;
        self.items.push_reserved(Change { at, label });
    }

    /// The label after a timestamp, from that at the floor. Takes time linear in the number of changes up to
    /// then.
    pub fn label_after(&self, at_floor: Option<LabelId>, t: Stamp) -> Option<LabelId>
        ensures { result ≡ label_after at_floor self.now.changes t }
    {
        let mut label = at_floor;
        for change in &self.items {
            if t < change.at {
                return label;
            }
            label = change.label;
        }
        label
    }

    /// The edge to a vertex with these changes before and after a timestamp, from its label at the floor.
    pub fn around(&self, to: VertexId, at_floor: &Option<LabelId>, t: Stamp) -> Near
        requires { 0 < t }
        ensures { result ≡ edge_with (Some self.now) t (to, at_floor.now) }
    {
        Near {
            to,
            before: self.label_after(*at_floor, previous(t)),
            after: self.label_after(*at_floor, t),
        }
    }

    /// Takes out the changes up to a timestamp, and answers the label then, from that at the floor. Where it
    /// takes some out it takes time linear in the number of all changes, else constant time; and no memory. Where
    /// no change is left it gives its memory back.
    pub fn fold_to(&mut self, at_floor: Option<LabelId>, t: Stamp) -> Option<LabelId>
        ensures label { result ≡ label_after at_floor self.old.changes t }
        ensures rest { self.new.changes ≡ changes_after self.old.changes t }
    {
        let label = self.label_after(at_floor, t);
        self.forget_to(t);
        label
    }

    /// The same, where it answers whether any changes are left.
    pub fn forget_to(&mut self, t: Stamp) -> bool
        ensures rest { self.new.changes ≡ changes_after self.old.changes t }
        ensures left { result ≡ is_changed self.new.changes }
    {
        let due = self.due(t);
        if due < self.items.len() {
            self.items.drain(..due);
            return true;
        }
        // Most labels change seldom, so room that stays would be most of what there is.
        self.items.clear();
        self.items.shrink_to_fit();
        false
    }

    /// How many changes come up to a timestamp.
    fn due(&self, t: Stamp) -> usize
        ensures { result ≡ due_count t self.now.changes }
    {
        let changes = self.items.as_slice();
        changes.iter().take_while(|change| change.at <= t).count()
    }

    /// Whether there is a change.
    pub fn has_some(&self) -> bool
        ensures { result ≡ is_changed self.now.changes }
    {
        match self.items.as_slice().first() {
            Some(_) => true,
            None => false,
        }
    }

    /// Whether a change comes after a timestamp. Takes time linear in the number of changes up to then.
    pub fn goes_past(&self, t: Stamp) -> bool
        ensures { result ≡ is_changed (changes_after self.now.changes t) }
    {
        for change in &self.items {
            if t < change.at {
                return true;
            }
        }
        false
    }
}

/// What lies in a place that no change has yet.
impl MadeWith<Global> for Change {
    fn made_with(_alloc: Global) -> Change {
        Change {
            at: Stamp(0),
            label: None,
        }
    }
}

/// The timestamp before.
pub(crate) fn previous(t: Stamp) -> Stamp
    requires { 0 < t }
    ensures { result ≡ t - 1 }
{
    Stamp(t.0 - 1)
}
