// The table of places of low ids. An entry is one more than the place of its id, or 0 where it has none.
ghost use Rattle.std.specs.Prelude.{◌≡◌, ℕ, ◌<◌, ◌≤◌, ◌==◌, if◌then◌else◌, is_ok, length, vec_len, slice_index_or, OnOk, OnErr};
ghost use Rattle.id_map.specs.storage.Places.{place_told, table_bound};

use std::alloc::AllocError;

/// The first id that the table has no room for, so that it takes 16 MB at most.
pub(crate) const BOUND: usize = 4_194_304;

/// The place that an entry tells.
pub(crate) fn told(entry: u32) -> Option<usize>
    ensures { result ≡ place_told entry }
{
    if entry == 0 {
        None
    } else {
        Some(entry as usize - 1)
    }
}

/// Writes the entry of an id, for which the table grows where it has to.
pub(crate) fn put(near: &mut Vec<u32>, id: usize, entry: u32) -> Result<(), AllocError>
    requires low { id < table_bound }
    requires bounded { vec_len near.old ≤ table_bound }
    ensures ok { OnOk result ((k : ℕ) → slice_index_or near.new.items k 0 ≡ (if k == id then entry else slice_index_or near.old.items k 0)) }
    ensures err { OnErr result (near.new.items ≡ near.old.items) }
    ensures bounded { vec_len near.new ≤ table_bound }
{
    if id >= near.len() {
        grow(near, id)?;
    }
    near[id] = entry;
    Ok(())
}

/// Makes the table at least twice as long, up to the bound, so that an id has an entry.
fn grow(near: &mut Vec<u32>, id: usize) -> Result<(), AllocError>
    requires low { id < table_bound }
    requires past { vec_len near.old ≤ id }
    ensures room { OnOk result (id < vec_len near.new) }
    ensures same { OnOk result ((k : ℕ) → slice_index_or near.new.items k 0 ≡ slice_index_or near.old.items k 0) }
    ensures err { OnErr result (near.new.items ≡ near.old.items) }
    ensures bounded { vec_len near.new ≤ table_bound }
{
    let old = near.len();
    let len = (2 * old).max(id + 1).min(BOUND);
    // Exactly, so that no table takes more than it may.
    near.reserve_exact(len - old)?;
    near.resize(len, 0)
}
