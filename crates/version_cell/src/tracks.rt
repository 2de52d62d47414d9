ghost use Rattle.std.specs.Prelude.{◌≡◌, ◌<◌, ℕ, false, IsTrue, IfOk, OnOk};
ghost use Rattle.std.specs.FinMap as map;
ghost use Rattle.std.specs.Ordering.{nat_cmp};
ghost use Rattle.version_cell.specs.meaning.Cell.{changes_of, room_of};
ghost use Rattle.version_cell.specs.meaning.Changes.{changes_after};
ghost use Rattle.version_cell.specs.storage.Around.{edge_around};
ghost use Rattle.version_cell.specs.storage.Tracks.{KeepsTracks, is_changed};

use crate::changes::Changes;
use graph_types::{LabelId, Near, NoMemory, Stamp, VertexId};
use std::alloc::Global;
use std::collections::BTreeMap;

/// Makes room for one more change of the edge to a vertex, where it has a list, and answers whether it has one.
/// Takes one look-up.
pub(crate) fn reserve_known(
    near: &mut BTreeMap<VertexId, Changes>,
    to: VertexId,
) -> Result<bool, NoMemory>
    ensures kept { KeepsTracks (map.from_entries near.old.entries) (map.from_entries near.new.entries) to }
    ensures lists { (w : ℕ) → map.contains_key (map.from_entries {R = nat_cmp} near.new.entries) w ≡ map.contains_key (map.from_entries {R = nat_cmp} near.old.entries) w }
    ensures known { IfOk result (λ known. known ≡ map.contains_key (map.from_entries {R = nat_cmp} near.new.entries) to) }
    ensures room { IfOk result (λ known. IsTrue known → 0 < room_of (map.get (map.from_entries {R = nat_cmp} near.new.entries) to)) }
{
    let Some(changes) = near.get_mut(&to) else {
        return Ok(false);
    };
    changes.reserve()?;
    Ok(true)
}

/// Gives a vertex that has no list of changes one with room for a change.
pub(crate) fn give_track(
    near: &mut BTreeMap<VertexId, Changes>,
    to: VertexId,
    alloc: Global,
) -> Result<(), NoMemory>
    requires { map.contains_key (map.from_entries {R = nat_cmp} near.old.entries) to ≡ false }
    ensures kept { KeepsTracks (map.from_entries near.old.entries) (map.from_entries near.new.entries) to }
    ensures ok { OnOk result (0 < room_of (map.get (map.from_entries {R = nat_cmp} near.new.entries) to)) }
{
    let mut changes = Changes::new(alloc);
    changes.reserve()?;
    near.insert(to, changes)?;
    Ok(())
}

/// The edge to a vertex before and after a timestamp, from its label at the floor.
pub(crate) fn near_around(
    near: &BTreeMap<VertexId, Changes>,
    to: VertexId,
    at_floor: &Option<LabelId>,
    t: Stamp,
) -> Near
    requires { 0 < t }
    ensures { result ≡ edge_around (map.from_entries near.now.entries) t (to, at_floor.now) }
{
    match near.get(&to) {
        Some(changes) => changes.around(to, at_floor, t),
        None => Near {
            to,
            before: *at_floor,
            after: *at_floor,
        },
    }
}

/// Takes out the changes up to a timestamp, and the lists of which nothing is left. Where no list is left the
/// map gives its memory back.
pub(crate) fn forget_to(near: &mut BTreeMap<VertexId, Changes>, t: Stamp)
    ensures rest { (w : ℕ) → changes_of (map.get (map.from_entries {R = nat_cmp} near.new.entries) w) ≡ changes_after (changes_of (map.get (map.from_entries {R = nat_cmp} near.old.entries) w)) t }
    ensures left { (w : ℕ) → IsTrue (map.contains_key (map.from_entries {R = nat_cmp} near.new.entries) w) → IsTrue (is_changed (changes_of (map.get (map.from_entries {R = nat_cmp} near.new.entries) w))) }
{
    near.retain(|_, changes| changes.forget_to(t));
    give_back(near);
}

/// Frees the node that a map keeps where it has become empty.
fn give_back(near: &mut BTreeMap<VertexId, Changes>)
    ensures { near.new.entries ≡ near.old.entries }
{
    if near.is_empty() {
        near.clear();
    }
}
