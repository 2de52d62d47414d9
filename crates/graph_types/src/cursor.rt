ghost use Rattle.std.specs.Prelude.{◌≡◌, List, MatchOption};
ghost use Rattle.std.specs.FinMap as map;
ghost use Rattle.std.specs.Ordering.{nat_cmp};
ghost use Rattle.graph_types.specs.storage.Ahead.{IsLowestOf, NoneBelow, ahead};
ghost use Rattle.graph_types.specs.storage.Few.{IsAscending};

use crate::entries::Entries;
use crate::{LabelId, Neighbours, VertexId};
use std::marker::Model;

/// Goes over the neighbours of a vertex, ascending, and shows the one that it stands at. Contracts see
/// the neighbours that are still to come, each with its label.
#[derive(Drop)]
pub(crate) struct Cursor<'a> {
    first: Option<(VertexId, LabelId)>,
    rest: Entries<'a, LabelId>,
}

impl<'a> Model for Cursor<'a> {
    ghost use Rattle.std.specs.Prelude.{ℕ};
    ghost use Rattle.std.specs.Coded.{coded_ℕ};
    ghost use Rattle.std.specs.Ordering.{nat_cmp};
    ghost use Rattle.std.specs.FinMap as map;
    ghost use Rattle.graph_types.specs.storage.Ahead.{ahead};
    ghost use Rattle.graph_types.specs.storage.Few.{IsAscending};

    ghost Value = { map.FinMap nat_cmp ℕ };

    ghost coded = { map.code coded_ℕ coded_ℕ };

    ghost view = { λ c. map.from_entries (ahead c.first c.rest) };

    ghost invariant = { λ c. IsAscending (ahead c.first c.rest) };
}

impl<'a> Cursor<'a> {
    /// A cursor over these neighbours. It takes no memory.
    pub fn over(near: &'a Neighbours<LabelId>) -> Cursor<'a>
        ensures { result ≡ near.now }
    {
        let mut rest = near.iter();
        let first = step(&mut rest);
        Cursor { first, rest }
    }

    /// A cursor over nothing.
    pub fn over_nothing() -> Cursor<'a>
        ensures { result ≡ map.empty }
    {
        Cursor {
            first: None,
            rest: Entries::of_few(&[]),
        }
    }

    /// The neighbour that it stands at, which is the lowest of those to come.
    pub fn vertex(&self) -> Option<VertexId>
        ensures { MatchOption result (self.now ≡ map.empty) (IsLowestOf self.now) }
    {
        let (v, _) = self.first?;
        Some(v)
    }

    /// Goes past `to`, where it stands there, and answers its label.
    pub fn pass(&mut self, to: VertexId) -> Option<LabelId>
        requires { NoneBelow to self.old }
        ensures label { result ≡ map.get self.old to }
        ensures rest { self.new ≡ map.remove self.old to }
    {
        let (v, label) = self.first?;
        if v != to {
            return None;
        }
        self.first = step(&mut self.rest);
        Some(label)
    }
}

/// Takes the next neighbour, if there is one.
fn step(rest: &mut Entries<'_, LabelId>) -> Option<(VertexId, LabelId)>
    ensures { ahead result rest.new ≡ rest.old }
{
    match rest.next() {
        Some((v, label)) => Some((v, *label)),
        None => None,
    }
}
