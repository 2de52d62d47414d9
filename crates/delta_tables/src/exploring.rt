//! The finds of a change, as the search of the program's mode hands them over.
ghost use Rattle.std.specs.Prelude.{◌≡◌};
ghost use Rattle.graph_types.specs.declared.ids.Mode.TheVariants as mode;
ghost use Rattle.mining_model.specs.meaning.NetChange.{net_change};

use crate::finds::{Find, FindCatch};
use filter_polarity::Program;
use graph_types::{Mode, Net, Snapshot, TwoSnapshots};
use seeded_search::{Stop, Turn};
use std::alloc::Global;

/// How many finds are listed at the most.
const MOST_FINDS: u32 = 1000;

/// The finds of a change, of which this is the net change, in ascending order.
pub fn finds(
    alloc: Global,
    program: &Program,
    net: &Net,
    before: &Snapshot,
    after: &Snapshot,
) -> Result<Vec<Find>, Stop>
    requires { net.now ≡ net_change before.now after.now }
{
    before.simple();
    after.simple();
    let mut view = TwoSnapshots::new(before, after);
    let mut catch = FindCatch::new(alloc, MOST_FINDS);
    match program.mode() {
        Mode::Vertex => vertex_expand::explore(alloc, program, net, &mut view, &mut catch)?,
        Mode::Edge => edge_expand::explore(alloc, program, net, &mut view, &mut catch)?,
    }
    Ok(catch.into_sorted())
}

/// The finds of the change where the search rests after each read.
pub fn finds_in_turns(
    alloc: Global,
    program: &Program,
    net: &Net,
    before: &Snapshot,
    after: &Snapshot,
) -> Result<Vec<Find>, Stop>
    requires { net.now ≡ net_change before.now after.now }
{
    let catch = match program.mode() {
        Mode::Vertex => walk_vertices(alloc, program, net, before, after)?,
        Mode::Edge => walk_edges(alloc, program, net, before, after)?,
    };
    Ok(catch.into_sorted())
}

fn walk_vertices(
    alloc: Global,
    program: &Program,
    net: &Net,
    before: &Snapshot,
    after: &Snapshot,
) -> Result<FindCatch, Stop>
    requires mode { program.now.mode ≡ mode.Vertex }
    requires net { net.now ≡ net_change before.now after.now }
{
    // By these calls the program tells that its filter falls, and the snapshots that they are simple.
    let _ = program.size();
    before.simple();
    after.simple();
    let mut view = TwoSnapshots::new(before, after);
    let mut catch = FindCatch::new(alloc, MOST_FINDS);
    let mut walk = vertex_expand::Walk::new(alloc, net)?;
    loop {
        match walk.turn(program, &mut view, &mut catch, 1)? {
            Turn::More => {}
            Turn::Done => return Ok(catch),
        }
    }
}

fn walk_edges(
    alloc: Global,
    program: &Program,
    net: &Net,
    before: &Snapshot,
    after: &Snapshot,
) -> Result<FindCatch, Stop>
    requires mode { program.now.mode ≡ mode.Edge }
    requires net { net.now ≡ net_change before.now after.now }
{
    // By these calls the program tells that its filter falls, and the snapshots that they are simple.
    let _ = program.size();
    before.simple();
    after.simple();
    let mut view = TwoSnapshots::new(before, after);
    let mut catch = FindCatch::new(alloc, MOST_FINDS);
    let mut walk = edge_expand::Walk::new(alloc, net)?;
    loop {
        match walk.turn(program, &mut view, &mut catch, 1)? {
            Turn::More => {}
            Turn::Done => return Ok(catch),
        }
    }
}
