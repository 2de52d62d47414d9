//! The search and the listing, on one graph after another.
ghost use Rattle.std.specs.Prelude.{◌≡◌};
ghost use Rattle.mining_model.specs.meaning.NetChange.{net_change};

use crate::case::Case;
use crate::deltas::{delta, delta_in_turns, is_told};
use crate::draws::Draws;
use crate::graphs::{build, change, draw_graph};
use crate::outcome::{Change, Outcome, Sums};
use filter_polarity::Program;
use graph_types::{Net, NoMemory, Snapshot};
use plain_miner::{embeddings, without};
use std::alloc::Global;

/// Compares the two on the graphs of a case, up to the first where they differ.
pub fn compare_all(alloc: Global, case: Case, program: &Program) -> Result<Outcome, NoMemory> {
    let mut sums = Sums::new();
    for graph in case.first..case.first.saturating_add(case.graphs) {
        match compare(alloc, case, graph, program)? {
            Some(change) => sums.add(change),
            None => return Ok(Outcome::Difference(graph)),
        }
    }
    Ok(Outcome::Agreement(sums))
}

/// Compares the two on the graph with a number, which is built twice and changed once. `None` where they differ.
fn compare(
    alloc: Global,
    case: Case,
    graph: u32,
    program: &Program,
) -> Result<Option<Change>, NoMemory> {
    let mut draws = Draws::new(graph);
    let updates = draw_graph(alloc, &mut draws, case)?;
    let before = build(alloc, &updates)?;
    let mut after = build(alloc, &updates)?;
    let window = change(alloc, &mut after, &mut draws, case)?;
    compare_change(alloc, program, window.net(0), &before, &after, case.most)
}

/// Compares the two on a change, of which this is the net change.
fn compare_change(
    alloc: Global,
    program: &Program,
    net: &Net,
    before: &Snapshot,
    after: &Snapshot,
    most: u32,
) -> Result<Option<Change>, NoMemory>
    requires { net.now ≡ net_change before.now after.now }
{
    let was = embeddings(alloc, program, before)?;
    let is = embeddings(alloc, program, after)?;
    let gone = without(alloc, &was, &is)?;
    let come = without(alloc, &is, &was)?;
    let few = gone.len().saturating_add(come.len()) <= most as usize;
    let told = delta(alloc, program, net, before, after, most)?;
    let in_turns = delta_in_turns(alloc, program, net, before, after, most)?;
    if !is_told(&told, &gone, &come, few) || !is_told(&in_turns, &gone, &come, few) {
        return Ok(None);
    }
    Ok(Some(Change {
        members: net.vertices.len().saturating_add(net.edges.len()),
        gone: gone.len(),
        come: come.len(),
        over: !few,
    }))
}
