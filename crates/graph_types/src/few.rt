//! A short list of neighbours, ascending, each with a value. Each call takes time linear in the list.
ghost use Rattle.std.specs.Prelude.{◌≡◌, ◌<◌, None, OnOk, OnErr, length, nat_lt, slice_set, take_while};
ghost use Rattle.std.specs.BTreeMap.{is_at};
ghost use Rattle.std.specs.FinMap.Entries.{find, put};
ghost use Rattle.std.specs.Map.{remove_entry};
ghost use Rattle.std.specs.Option.{option_copied};
ghost use Rattle.std.specs.Ordering.{nat_cmp};
ghost use Rattle.graph_types.specs.storage.Few.{IsAscending, IsSought};

use crate::{NoMemory, VertexId};

pub(crate) type Short<V> = Vec<(VertexId, V)>;

/// The place of a neighbour, or where it would go.
fn seek<V>(few: &[(VertexId, V)], to: VertexId) -> Result<usize, usize>
    ensures { IsSought few.now to result }
{
    let at = place(few, to);
    match few.get(at) {
        Some((v, _)) if *v == to => Ok(at),
        _ => Err(at),
    }
}

fn place<V>(few: &[(VertexId, V)], to: VertexId) -> usize
    ensures { result ≡ length (take_while (λ n. nat_lt n.0 to) few.now) }
{
    few.iter().take_while(|(v, _)| *v < to).count()
}

/// The value of a neighbour.
pub(crate) fn get<V>(few: &[(VertexId, V)], to: VertexId) -> Option<&V>
    requires { IsAscending few.now }
    ensures { option_copied result ≡ find nat_cmp to few.now }
{
    let Ok(at) = seek(few, to) else {
        return None;
    };
    Some(&few[at].1)
}

/// Puts a neighbour in, or gives it another value.
pub(crate) fn put<V: Copy>(few: &mut Short<V>, to: VertexId, value: V) -> Result<(), NoMemory>
    requires { IsAscending few.old.items }
    ensures ok { OnOk result (few.new.items ≡ put nat_cmp to value few.old.items) }
    ensures err { OnErr result (few.new.items ≡ few.old.items) }
    ensures was_new { OnErr result (find nat_cmp to few.old.items ≡ None) }
{
    match seek(few, to) {
        Ok(at) => write(few.as_mut_slice(), at, (to, value)),
        Err(at) => few.insert(at, (to, value))?,
    }
    Ok(())
}

fn write<V: Copy>(few: &mut [(VertexId, V)], at: usize, entry: (VertexId, V))
    requires { at < length few.old }
    ensures { few.new ≡ slice_set few.old at entry }
{
    few[at] = entry;
}

/// Takes a neighbour out, if it is there, and gives its value back.
pub(crate) fn take<V>(few: &mut Short<V>, to: VertexId) -> Option<V>
    requires { IsAscending few.old.items }
    ensures taken { result ≡ find nat_cmp to few.old.items }
    ensures rest { few.new.items ≡ remove_entry (is_at (nat_cmp to)) few.old.items }
{
    let Ok(at) = seek(few, to) else {
        return None;
    };
    let (_, value) = few.remove(at);
    Some(value)
}
