ghost use Rattle.std.specs.Prelude.{◌≡◌};
ghost use Rattle.mining_model.specs.meaning.NetChange.{net_change};

use delta_task::{DeltaCatch, FindStop, finds_of};
use filter_polarity::Program;
use graph_types::{Mode, Net, NoMemory, Piece, Snapshot, TwoSnapshots};
use picture::{Catch, CatchStop, Picture};
use std::alloc::Global;

/// `ROOM: FIND;..;FIND`: whether a catch with so much room takes each find, of which is said in which graphs it is an
/// embedding: `was`, `is` or `both`.
pub fn catch(alloc: Global, text: &str) -> Result<String, NoMemory> {
    let (number, finds) = text.split_once(": ").unwrap_or((text, ""));
    let Ok(room) = number.parse::<u32>() else {
        return Ok(String::from_str(alloc, "no number")?);
    };
    let mut catch = DeltaCatch::new(alloc, room);
    let mut answer = String::new(alloc);
    for find in finds.split(';') {
        if !answer.is_empty() {
            answer.push_str(", ")?;
        }
        answer.push_str(give(&mut catch, find)?)?;
    }
    Ok(answer)
}

fn give(catch: &mut DeltaCatch, find: &str) -> Result<&'static str, NoMemory> {
    let piece = Piece::empty(Mode::Vertex);
    let picture = Picture::new(Mode::Vertex);
    let given = match find {
        "was" => catch.found(&piece, Some(&picture), None),
        "is" => catch.found(&piece, None, Some(&picture)),
        "both" => catch.found(&piece, Some(&picture), Some(&picture)),
        _ => return Ok("no find"),
    };
    match given {
        Ok(()) => Ok("taken"),
        Err(CatchStop::Full) => Ok("full"),
        Err(CatchStop::NoMemory) => Err(NoMemory),
    }
}

/// How many notes a catch with so much room keeps of the finds of a change, of which this is the net change. `None`
/// where it has no room for one of them.
pub fn count_kept(
    alloc: Global,
    program: &Program,
    net: &Net,
    before: &Snapshot,
    after: &Snapshot,
    room: u32,
) -> Result<Option<u32>, NoMemory>
    requires { net.now ≡ net_change before.now after.now }
{
    before.simple();
    after.simple();
    let mut view = TwoSnapshots::new(before, after);
    let mut catch = DeltaCatch::new(alloc, room);
    match finds_of(alloc, program, net, &mut view, &mut catch) {
        Ok(()) => Ok(Some(room.saturating_sub(count_taken(&mut catch, room)?))),
        Err(FindStop::Full) => Ok(None),
        Err(FindStop::NoMemory) => Err(NoMemory),
        // Nothing in two snapshots is ever held.
        Err(FindStop::Held(_)) => unreachable!(),
    }
}

/// How many finds more a catch takes, of so many that are given to it.
fn count_taken(catch: &mut DeltaCatch, given: u32) -> Result<u32, NoMemory> {
    for taken in 0..given {
        if give(catch, "is")? == "full" {
            return Ok(taken);
        }
    }
    Ok(given)
}
