ghost use Rattle.std.specs.Prelude.{◌≡◌, ◌↔◌, ℕ, IsTrue, OnOk};
ghost use Rattle.std.specs.FinMap as map;
ghost use Rattle.std.specs.Ordering.{nat_cmp};
ghost use Rattle.version_cell.specs.meaning.Cell.{changes_of};
ghost use Rattle.version_cell.specs.meaning.Changes.{changes_after, label_after};
ghost use Rattle.version_cell.specs.storage.Places.{HavePlaces, near_at_floor, place_label, with_place};
ghost use Rattle.version_cell.specs.storage.Tracks.{is_changed};

use crate::changes::Changes;
use graph_types::{LabelId, Neighbours, NoMemory, Stamp, VertexId};
use std::collections::BTreeMap;

/// The label of the edge to a vertex at the floor.
pub(crate) fn floor_label(places: &Neighbours<Option<LabelId>>, to: VertexId) -> Option<LabelId>
    ensures { result ≡ place_label places.now to }
{
    *places.get(to)?
}

/// Whether no edge leads anywhere at the floor. It stops at the first that does.
pub(crate) fn has_no_edge(places: &Neighbours<Option<LabelId>>) -> bool
    ensures { IsTrue result ↔ (near_at_floor places.now ≡ map.empty) }
{
    for (_, at_floor) in places {
        if at_floor.is_some() {
            return false;
        }
    }
    true
}

/// Gives a vertex a place, where it has none: no edge leads there at the floor.
pub(crate) fn give_place(
    places: &mut Neighbours<Option<LabelId>>,
    to: VertexId,
) -> Result<(), NoMemory>
    ensures same { near_at_floor places.new ≡ near_at_floor places.old }
    ensures kept { (w : ℕ) → IsTrue (map.contains_key places.old w) → IsTrue (map.contains_key places.new w) }
    ensures ok { OnOk result (IsTrue (map.contains_key places.new to)) }
{
    if places.get(to).is_some() {
        return Ok(());
    }
    places.put(to, None)?;
    Ok(())
}

/// Gives a vertex that has a place another label. Where it has none, its place goes unless it is kept. It
/// takes no memory.
fn set_place(
    places: &mut Neighbours<Option<LabelId>>,
    to: VertexId,
    label: Option<LabelId>,
    kept: bool,
)
    requires { IsTrue (map.contains_key places.old to) }
    ensures { places.new ≡ with_place places.old to label kept }
{
    if label.is_none() && !kept {
        places.take(to);
        return;
    }
    let Ok(()) = places.put(to, label) else {
        unreachable!()
    };
}

/// Gives each vertex whose edge changes the label that it has after a timestamp. The place of one that has
/// none then, and no later change, goes. It takes no memory, and time linear in the number of changes up to
/// the timestamp, each with a look-up.
pub(crate) fn fold_places(
    places: &mut Neighbours<Option<LabelId>>,
    near: &BTreeMap<VertexId, Changes>,
    t: Stamp,
)
    requires { HavePlaces (map.from_entries {R = nat_cmp} near.now.entries) places.old }
    ensures labels { (w : ℕ) → place_label places.new w ≡ label_after (place_label places.old w) (changes_of (map.get (map.from_entries {R = nat_cmp} near.now.entries) w)) t }
    ensures stays { (w : ℕ) → IsTrue (is_changed (changes_after (changes_of (map.get (map.from_entries {R = nat_cmp} near.now.entries) w)) t)) → IsTrue (map.contains_key places.new w) }
{
    for (to, changes) in near {
        let label = changes.label_after(floor_label(places, *to), t);
        set_place(places, *to, label, changes.goes_past(t));
    }
}
