ghost use Rattle.std.specs.Prelude.{◌≡◌, ℕ, ◌<◌, ◌≤◌, ◌++◌, length, map as mapped, OnOk};
ghost use Rattle.std.specs.List.{AllByRecursion};
ghost use Rattle.std.specs.List.Sorted.{IsStrictlySortedBy};
ghost use Rattle.update_rules.specs.meaning.Parts.{vertex_of};
ghost use Rattle.update_rules.specs.meaning.Places.{Place, place_cmp};
ghost use Rattle.shard_state.specs.calls.CellChanges.{IsReady, KeepsEntries, noted_all};
ghost use Rattle.shard_state.specs.meaning.Shards.{place_of};
ghost use Rattle.shard_state.specs.meaning.Versions.{folded_to};
ghost use Rattle.shard_state.specs.storage.Cells.{floor_in, room_in, versions_in};
ghost use Rattle.shard_state.specs.storage.KeyedCells.{Owns, cells_of};
ghost use Rattle.shard_state.specs.storage.Touched.{IsStored, touches_of};

use crate::cells::{Cells, vertex};
use crate::class::Class;
use crate::touched::Touched;
use graph_types::{NoMemory, Stamp};
use update_rules::Change;

/// Makes some changes ones that take no memory. Out of memory leaves what the cells tell.
pub(crate) fn reserve_each(
    cells: &mut Cells,
    class: Class,
    changes: &[Change],
) -> Result<(), NoMemory>
    requires { AllByRecursion (λ change. Owns class (vertex_of change)) changes.now }
    ensures kept { KeepsEntries (cells_of class cells.old) (cells_of class cells.new) }
    ensures ok { OnOk result (AllByRecursion (λ change. 0 < room_in (cells_of class cells.new) (place_of change)) changes.now) }
{
    for change in changes {
        cells.reserve(class, change)?;
    }
    Ok(())
}

/// Notes some changes, which share a timestamp. It takes no memory.
pub(crate) fn note_each(
    cells: &mut Cells,
    class: Class,
    touched: &mut Touched,
    changes: &[Change],
    at: Stamp,
)
    requires ready { AllByRecursion (IsReady (cells_of class cells.old) at) changes.now }
    requires ascending { IsStrictlySortedBy place_cmp (mapped place_of changes.now) }
    requires room { length changes.now ≤ touched.old.room }
    ensures versions { (p : Place) → versions_in (cells_of class cells.new) p ≡ noted_all at changes.now p (versions_in (cells_of class cells.old) p) }
    ensures floors { (v : ℕ) → floor_in (cells_of class cells.new) v ≡ floor_in (cells_of class cells.old) v }
    ensures touches { touched.new.touches ≡ touched.old.touches ++ touches_of at changes.now }
{
    for change in changes {
        cells.note(class, at, change);
        touched.push(at, vertex(change));
    }
}

/// Folds what changed up to a timestamp. Takes a look-up for each of these changes, and no memory.
pub(crate) fn fold_touched(cells: &mut Cells, class: Class, touched: &mut Touched, floor: Stamp)
    ensures stored { (f u : ℕ) → IsStored f u (cells_of class cells.old) touched.old.touches → f ≤ floor → IsStored floor u (cells_of class cells.new) touched.new.touches }
    ensures folded { (f u : ℕ) → IsStored f u (cells_of class cells.old) touched.old.touches → f ≤ floor →
        (p : Place) → versions_in (cells_of class cells.new) p ≡ folded_to floor (versions_in (cells_of class cells.old) p) }
{
    while let Some(v) = touched.take_due(floor) {
        cells.fold(class, v, floor);
    }
}
