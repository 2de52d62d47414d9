ghost use Rattle.std.specs.Prelude.{◌≡◌, IsTrue, is_some, OnOk};
ghost use Rattle.std.specs.BTreeMap.{get};
ghost use Rattle.graph_types.specs.meaning.Graph.{Graph};
ghost use Rattle.update_rules.specs.calls.Overlays.{IsOverlaid};
ghost use Rattle.group_window.specs.calls.Keeping.{HasPlaces};
ghost use Rattle.update_rules.specs.meaning.Places.{place_cmp};

use graph_types::{NoMemory, Snapshot};
use update_rules::{Entries, Place, entry};

/// Keeps what stands in the graph at the places of `entries`, but where `earlier` has an entry already.
/// Takes a few look-ups for each. Out of memory may leave some kept.
pub(crate) fn keep_each(
    earlier: &mut Entries,
    graph: &Snapshot,
    entries: &Entries,
) -> Result<(), NoMemory>
    ensures overlaid { (before : Graph) → IsOverlaid earlier.old graph.now before → IsOverlaid earlier.new graph.now before }
    ensures places { OnOk result (HasPlaces earlier.new entries.now) }
{
    for (place, _) in entries {
        keep(earlier, graph, *place)?;
    }
    Ok(())
}

fn keep(earlier: &mut Entries, graph: &Snapshot, place: Place) -> Result<(), NoMemory>
    ensures overlaid { (before : Graph) → IsOverlaid earlier.old graph.now before → IsOverlaid earlier.new graph.now before }
    ensures others { HasPlaces earlier.new earlier.old }
    ensures own { OnOk result (IsTrue (is_some (get place_cmp earlier.new place))) }
{
    let kept = earlier.contains_key(&place);
    if !kept {
        earlier.insert(place, entry(graph, place))?;
    }
    Ok(())
}
