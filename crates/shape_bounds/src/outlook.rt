ghost use Rattle.std.specs.Prelude.{◌≡◌, ◌≤◌, ◌+◌, ◌*◌, IsTrue, Some, slice_get};
ghost use Rattle.conditions.specs.meaning.Written.{are_numbers_within};
ghost use Rattle.shape_bounds.specs.storage.Outlooks.{Foretells};

use crate::outcome::{Outcome, outcome_of};
use conditions::Cond;
use std::marker::Model;

const MOST_VERTICES: usize = 9;

const MOST_EDGES: usize = 36;

/// One row of outcomes for each number of vertices.
const ROW: usize = MOST_EDGES + 1;

const PLACES: usize = (MOST_VERTICES + 1) * ROW;

/// What a condition is of the simple graphs of up to nine vertices and 36 edges: worked out once, and looked up from
/// then on.
#[derive(Debug, Drop)]
pub struct Outlook {
    outcomes: [Outcome; PLACES],
}

impl Model for Outlook {
    ghost use Rattle.std.specs.Prelude.{◌≡◌, List, length};
    ghost use Rattle.shape_bounds.specs.declared.outcome.Outcome.{Outcome};
    ghost use Rattle.shape_bounds.specs.storage.Outlooks.{places};

    ghost Value = { List Outcome };

    ghost view = { λ o. o.outcomes };

    ghost invariant = { λ o. length o.outcomes ≡ places };
}

impl Outlook {
    /// The outlook of a condition. Takes time linear in its size, some hundred times.
    pub fn of(cond: &Cond) -> Outlook
        requires within { IsTrue (are_numbers_within cond.now) }
        ensures { Foretells cond.now result }
    {
        let mut outcomes = [Outcome::Open; PLACES];
        for place in 0..PLACES {
            outcomes[place] = outcome_of(cond, (place / ROW) as u32, (place % ROW) as u32);
        }
        Outlook { outcomes }
    }

    /// What the condition is of each simple graph with so many vertices and edges, in constant time.
    pub fn outcome(&self, vertices: usize, edges: usize) -> Outcome
        requires few_vertices { vertices ≤ 9 }
        requires few_edges { edges ≤ 36 }
        ensures { slice_get self.now (vertices * 37 + edges) ≡ Some result }
    {
        self.outcomes[vertices * ROW + edges]
    }
}
