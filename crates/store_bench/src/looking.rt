//! What the groups of a window changed, fetched as it was around each of them.
ghost use Rattle.std.specs.Prelude.{length};
ghost use Rattle.shard_state.specs.calls.Sharing.{TellGroups};

use graph_types::{GraphView, LabelId, Net, Pair, VertexId};
use group_window::Window;
use shard_state::{OwnedView, Shard};
use std::alloc::{AllocError, Global};

/// What was fetched: how many vertices, the numbers of the labels of these and of their edges before and after,
/// and how many neighbours.
#[derive(Clone, Copy)]
pub struct Seen {
    pub fetched: u64,
    pub labels: u64,
    pub neighbours: u64,
}

impl Seen {
    pub fn new() -> Seen {
        Seen {
            fetched: 0,
            labels: 0,
            neighbours: 0,
        }
    }

    fn add(&mut self, pair: &Pair) {
        self.fetched = self.fetched.wrapping_add(1);
        self.add_label(pair.before);
        self.add_label(pair.after);
        for near in pair.near.as_slice() {
            self.neighbours = self.neighbours.wrapping_add(1);
            self.add_label(near.before);
            self.add_label(near.after);
        }
    }

    fn add_label(&mut self, label: Option<LabelId>) {
        if let Some(label) = label {
            self.labels = self.labels.wrapping_add(u64::from(label.0) + 1);
        }
    }
}

/// Fetches each vertex that a group of the window changed, and both ends of each edge, from the graphs before and
/// after that group.
pub fn look(
    alloc: Global,
    shards: &[Shard],
    window: &Window,
    seen: &mut Seen,
) -> Result<(), AllocError>
    requires { TellGroups window.now (length window.now.later) 0 shards.now }
{
    for group in 0..window.len() {
        let mut view = OwnedView::new(shards, window.stamp_after(group + 1));
        look_at(alloc, &mut view, window.net(group), seen)?;
    }
    Ok(())
}

fn look_at(
    alloc: Global,
    view: &mut OwnedView,
    net: &Net,
    seen: &mut Seen,
) -> Result<(), AllocError> {
    for vertex in net.vertices.as_slice() {
        fetch(alloc, view, *vertex, seen)?;
    }
    for edge in net.edges.as_slice() {
        fetch(alloc, view, edge.a(), seen)?;
        fetch(alloc, view, edge.b(), seen)?;
    }
    Ok(())
}

/// A view of shards with one owner is never held, so it fails only where there is no memory.
fn fetch(
    alloc: Global,
    view: &mut OwnedView,
    vertex: VertexId,
    seen: &mut Seen,
) -> Result<(), AllocError> {
    let Ok(pair) = view.fetch(alloc, vertex) else {
        return Err(AllocError);
    };
    seen.add(&pair);
    Ok(())
}
