ghost use Rattle.std.specs.Prelude.{◌≡◌, ◌≢◌, ◌<◌, ℕ, min, max, SomeIff};

use crate::VertexId;
use std::marker::Model;

/// An undirected edge between two different vertices. Contracts see it as the pair of its ends, the
/// lower one first. Edges are ordered by the lower end and then by the higher one.
#[derive(Clone, Copy, Debug, PartialEq, Eq, PartialOrd, Ord, Hash)]
pub struct Edge {
    low: VertexId,
    high: VertexId,
}

impl Model for Edge {
    ghost Value = { ℕ × ℕ };

    ghost view = { λ e. (e.low, e.high) };

    ghost invariant = { λ e. e.low < e.high };

    ghost inverse = { λ p. record { low = p.0; high = p.1 } };
}

impl Edge {
    /// The edge between `x` and `y`, in either order, or `None` where they are one vertex.
    pub fn of(x: VertexId, y: VertexId) -> Option<Edge>
        ensures { SomeIff result (x ≢ y) (min x y, max x y) }
    {
        if x < y {
            Some(Edge { low: x, high: y })
        } else if y < x {
            Some(Edge { low: y, high: x })
        } else {
            None
        }
    }

    /// The lower end.
    pub fn a(&self) -> VertexId
        ensures lower { result ≡ self.now.0 }
        ensures ordered { result < self.now.1 }
    {
        self.low
    }

    /// The higher end.
    pub fn b(&self) -> VertexId
        ensures higher { result ≡ self.now.1 }
        ensures ordered { self.now.0 < result }
    {
        self.high
    }
}
