ghost use Rattle.std.specs.Prelude.{◌≡◌, map as mapped, OnOk};
ghost use Rattle.shard_state.specs.calls.Together.{FitTogether, with_part};

use crate::Shard;
use graph_types::{NoMemory, Stamp};
use update_rules::Part;

/// Lets shards that have one owner take in the parts of a group, each its own. Out of memory may leave some of them
/// with their part, and others without.
pub fn apply_parts(shards: &mut [Shard], parts: &[Part], at: Stamp) -> Result<(), NoMemory>
    requires { FitTogether shards.old parts.now at }
    ensures { OnOk result (shards.new ≡ mapped (with_part parts.now at) shards.old) }
{
    for part in parts {
        shards[part.shard as usize].apply(part, at)?;
    }
    Ok(())
}
