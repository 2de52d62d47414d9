ghost use Rattle.std.specs.Prelude.{◌≡◌, ◌<◌, ◌≤◌, false, IsTrue, IfOk, IfSome, OnOk};
ghost use Rattle.std.specs.FinMap as map;
ghost use Rattle.std.specs.Option.{option_copied};
ghost use Rattle.update_rules.specs.meaning.Parts.{vertex_of};
ghost use Rattle.shard_state.specs.calls.CellChanges.{FoldsCell, KeepsEntries, NotesVersion, noted_in_cell};
ghost use Rattle.shard_state.specs.meaning.Shards.{place_of, version_of};
ghost use Rattle.shard_state.specs.storage.Cells.{floor_in, room_in, room_in_cell, versions_in, versions_in_cell};
ghost use Rattle.shard_state.specs.storage.KeyedCells.{Owns, cells_of};
ghost use Rattle.version_cell.specs.calls.Changing.{KeepsVersions};
ghost use Rattle.version_cell.specs.meaning.Cell.{HasNothing};
ghost use Rattle.version_cell.specs.meaning.Changes.{IsAfterLast};

use crate::class::Class;
use graph_types::{NoMemory, Stamp, VertexId};
use id_map::IdMap;
use std::alloc::Global;
use std::marker::Model;
use update_rules::Change;
use version_cell::Cell;

/// The vertices of a shard through time, each in a cell of its own, which stands at the key of the vertex. A vertex
/// without a cell never was there.
///
/// A look-up takes constant time for a vertex below 4,194,304, and else time logarithmic in the number of cells.
#[derive(Drop)]
pub(crate) struct Cells {
    items: IdMap<Cell>,
    alloc: Global,
}

impl Model for Cells {
    ghost use Rattle.std.specs.Coded.{coded_ℕ};
    ghost use Rattle.std.specs.FinMap as map;
    ghost use Rattle.std.specs.Ordering.{nat_cmp};
    ghost use Rattle.version_cell.specs.meaning.Cell.{Timeline, timeline_code};

    ghost Value = { map.FinMap nat_cmp Timeline };

    ghost coded = { map.code coded_ℕ timeline_code };

    ghost view = { λ c. c.items };
}

impl Cells {
    /// No cells. They take their memory from `alloc`, and none yet.
    pub fn new(alloc: Global) -> Cells
        ensures { result ≡ map.empty }
    {
        Cells {
            items: IdMap::new(alloc),
            alloc,
        }
    }

    /// The cell of a vertex, with a look-up. A vertex of another shard has none.
    pub fn get(&self, class: Class, v: VertexId) -> Option<&Cell>
        ensures { option_copied result ≡ map.get (cells_of class self.now) v }
    {
        if !class.has(v) {
            return None;
        }
        self.items.get(class.key(v))
    }

    /// Makes the next change of an entry one that takes no memory. Out of memory leaves what the cells tell. Takes
    /// one look-up, and two more for a vertex without a cell, for which the table may grow.
    pub fn reserve(&mut self, class: Class, change: &Change) -> Result<(), NoMemory>
        requires { Owns class (vertex_of change.now) }
        ensures kept { KeepsEntries (cells_of class self.old) (cells_of class self.new) }
        ensures ok { OnOk result (0 < room_in (cells_of class self.new) (place_of change.now)) }
    {
        if reserve_known(&mut self.items, class, change)? {
            return Ok(());
        }
        give_cell(&mut self.items, class, change, self.alloc)
    }

    /// Notes what an entry became at a timestamp. It takes no memory, and one look-up.
    pub fn note(&mut self, class: Class, at: Stamp, change: &Change)
        requires reserved { 0 < room_in (cells_of class self.old) (place_of change.now) }
        requires above { floor_in (cells_of class self.old) (vertex_of change.now) < at }
        requires later { IsAfterLast (versions_in (cells_of class self.old) (place_of change.now)).changes at }
        ensures { NotesVersion (cells_of class self.old) (cells_of class self.new) (place_of change.now) (version_of at change.now) }
    {
        let v = vertex(change);
        let Some(cell) = self.items.get_mut(class.key(v)) else {
            unreachable!()
        };
        note_in(cell, at, change);
    }

    /// Folds the cell of a vertex to a timestamp, where it has one that is not folded so far already. A cell in
    /// which nothing is left goes. It takes no memory, and one look-up, and another where a cell goes.
    pub fn fold(&mut self, class: Class, v: VertexId, t: Stamp)
        ensures folds { floor_in (cells_of class self.old) v < t → FoldsCell (cells_of class self.old) (cells_of class self.new) v t }
        ensures rests { t ≤ floor_in (cells_of class self.old) v → cells_of class self.new ≡ cells_of class self.old }
    {
        if !class.has(v) {
            return;
        }
        if fold_known(&mut self.items, class, v, t) {
            self.items.remove(class.key(v));
        }
    }
}

/// Makes the next change of an entry one that takes no memory, where its vertex has a cell, and answers whether it
/// has one.
fn reserve_known(items: &mut IdMap<Cell>, class: Class, change: &Change) -> Result<bool, NoMemory>
    requires { Owns class (vertex_of change.now) }
    ensures kept { KeepsEntries (cells_of class items.old) (cells_of class items.new) }
    ensures known { IfOk result (λ known. known ≡ map.contains_key (cells_of class items.new) (vertex_of change.now)) }
    ensures room { IfOk result (λ known. IsTrue known → 0 < room_in (cells_of class items.new) (place_of change.now)) }
{
    let v = vertex(change);
    let Some(cell) = items.get_mut(class.key(v)) else {
        return Ok(false);
    };
    reserve_in(cell, change)?;
    Ok(true)
}

/// Gives the vertex of an entry, which has no cell, one in which the next change of the entry takes no memory.
fn give_cell(
    items: &mut IdMap<Cell>,
    class: Class,
    change: &Change,
    alloc: Global,
) -> Result<(), NoMemory>
    requires own { Owns class (vertex_of change.now) }
    requires absent { map.contains_key (cells_of class items.old) (vertex_of change.now) ≡ false }
    ensures kept { KeepsEntries (cells_of class items.old) (cells_of class items.new) }
    ensures ok { OnOk result (0 < room_in (cells_of class items.new) (place_of change.now)) }
{
    let v = vertex(change);
    let mut cell = Cell::new(alloc);
    reserve_in(&mut cell, change)?;
    items.insert(class.key(v), cell)?;
    Ok(())
}

/// Folds the cell of a vertex to a timestamp, where it has one that is not folded so far already, and answers
/// whether it did so and nothing is left in it.
fn fold_known(items: &mut IdMap<Cell>, class: Class, v: VertexId, t: Stamp) -> bool
    requires { Owns class v }
    ensures folds { floor_in (cells_of class items.old) v < t → FoldsCell (cells_of class items.old) (cells_of class items.new) v t }
    ensures rests { t ≤ floor_in (cells_of class items.old) v → cells_of class items.new ≡ cells_of class items.old }
    ensures emptied { IsTrue result → (floor_in (cells_of class items.old) v < t) × IfSome (map.get (cells_of class items.new) v) HasNothing }
{
    let Some(cell) = items.get_mut(class.key(v)) else {
        return false;
    };
    if t <= cell.floor() {
        return false;
    }
    cell.fold_to(t);
    cell.is_empty()
}

fn reserve_in(cell: &mut Cell, change: &Change) -> Result<(), NoMemory>
    ensures kept { KeepsVersions cell.old cell.new }
    ensures ok { OnOk result (0 < room_in_cell cell.new (place_of change.now).1) }
{
    match *change {
        Change::Label { .. } => cell.reserve_label(),
        Change::Near { to, .. } => cell.reserve_near(to),
    }
}

fn note_in(cell: &mut Cell, at: Stamp, change: &Change)
    requires reserved { 0 < room_in_cell cell.old (place_of change.now).1 }
    requires above { cell.old.floor < at }
    requires later { IsAfterLast (versions_in_cell cell.old (place_of change.now).1).changes at }
    ensures { cell.new ≡ noted_in_cell at change.now cell.old }
{
    match *change {
        Change::Label { label, .. } => cell.set_label(at, label),
        Change::Near { to, label, .. } => cell.set_near(at, to, label),
    }
}

/// The vertex at which the entry stands.
pub(crate) fn vertex(change: &Change) -> VertexId
    ensures { result ≡ vertex_of change.now }
{
    match *change {
        Change::Label { vertex, .. } => vertex,
        Change::Near { vertex, .. } => vertex,
    }
}
