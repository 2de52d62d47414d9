//! What goes and comes by a change, as the search tells it.
ghost use Rattle.std.specs.Prelude.{◌≡◌};
ghost use Rattle.mining_model.specs.meaning.NetChange.{net_change};

use delta_task::{Delta, DeltaStop, DeltaTurn, DeltaWalk, delta_of};
use filter_polarity::Program;
use graph_types::{Net, NoMemory, Piece, Snapshot, TwoSnapshots};
use std::alloc::Global;

/// What the search tells of a change, of which this is the net change.
pub fn delta(
    alloc: Global,
    program: &Program,
    net: &Net,
    before: &Snapshot,
    after: &Snapshot,
    most: u32,
) -> Result<Delta, NoMemory>
    requires { net.now ≡ net_change before.now after.now }
{
    before.simple();
    after.simple();
    let mut view = TwoSnapshots::new(before, after);
    match delta_of(alloc, program, net, &mut view, most) {
        Ok(delta) => Ok(delta),
        Err(DeltaStop::NoMemory) => Err(NoMemory),
        // Nothing in two snapshots is ever held.
        Err(DeltaStop::Held(_)) => unreachable!(),
    }
}

/// What the search tells of the change where it rests after each read.
pub fn delta_in_turns(
    alloc: Global,
    program: &Program,
    net: &Net,
    before: &Snapshot,
    after: &Snapshot,
    most: u32,
) -> Result<Delta, NoMemory>
    requires { net.now ≡ net_change before.now after.now }
{
    before.simple();
    after.simple();
    let mut view = TwoSnapshots::new(before, after);
    let mut walk = DeltaWalk::new(alloc, program, net, most)?;
    loop {
        match walk.turn(alloc, program, &mut view, 1) {
            Ok(DeltaTurn::More) => {}
            Ok(DeltaTurn::Ready(delta)) => return Ok(delta),
            Err(DeltaStop::NoMemory) => return Err(NoMemory),
            // Nothing in two snapshots is ever held.
            Err(DeltaStop::Held(_)) => unreachable!(),
        }
    }
}

/// Whether the two tell the same.
pub fn are_same(delta: &Delta, other: &Delta) -> bool {
    match delta {
        Delta::Listed { rem, add } => is_told(other, rem, add, true),
        Delta::Over => is_told(other, &[], &[], false),
    }
}

/// Whether just these pieces are listed where they are few, and it is told that there are more where they aren't.
pub fn is_told(delta: &Delta, gone: &[Piece], come: &[Piece], few: bool) -> bool {
    match delta {
        Delta::Listed { rem, add } => few && are_equal(rem, gone) && are_equal(add, come),
        Delta::Over => !few,
    }
}

fn are_equal(pieces: &[Piece], others: &[Piece]) -> bool {
    pieces == others
}
