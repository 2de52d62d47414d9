ghost use Rattle.std.specs.Prelude.{◌≡◌, ◌≤◌, ◌&&◌, IsTrue, eqb, length};
ghost use Rattle.conditions.specs.meaning.Written.{are_numbers_within};
ghost use Rattle.shape_bounds.specs.meaning.Outcomes.{comparison_may_hold, may_fail, may_hold, opposite, outcome_of};

use crate::sums::{Bounds, sum_bounds};
use conditions::{Cond, Op, Pattern};

/// What a condition is of all simple graphs with so many vertices and edges.
#[derive(Clone, Copy, Debug, PartialEq, Eq)]
pub enum Outcome {
    Holds,
    Fails,
    /// Their numbers alone don't tell.
    Open,
}

/// What a condition is of the simple graphs with so many vertices and edges, as far as `may_hold` and `may_fail` tell.
pub fn outcome_of(cond: &Cond, vertices: u32, edges: u32) -> Outcome
    requires few_vertices { vertices ≤ 9 }
    requires few_edges { edges ≤ 36 }
    requires within { IsTrue (are_numbers_within cond.now) }
    ensures { result ≡ outcome_of cond.now vertices edges }
{
    if !may_hold(cond, vertices, edges) {
        Outcome::Fails
    } else if may_fail(cond, vertices, edges) {
        Outcome::Open
    } else {
        Outcome::Holds
    }
}

/// Whether a condition may hold of a simple graph with so many vertices and edges, by the condition's form and by what
/// its terms count at least and at most. Where it says no, the condition holds of none of them; where it says yes, it
/// need not hold of one. Takes time linear in the condition's size.
#[cycle(outcomes)]
pub fn may_hold(cond: &Cond, vertices: u32, edges: u32) -> bool
    requires few_vertices { vertices ≤ 9 }
    requires few_edges { edges ≤ 36 }
    requires within { IsTrue (are_numbers_within cond.now) }
    ensures { result ≡ may_hold cond.now vertices edges }
{
    match cond {
        Cond::True => true,
        Cond::False => false,
        Cond::Compare { sum, op, bound } => {
            may_compare(*op, sum_bounds(sum, vertices, edges), *bound)
        }
        Cond::Not(c) => may_fail(c.get(), vertices, edges),
        Cond::And(c, d) => may_hold(c.get(), vertices, edges) && may_hold(d.get(), vertices, edges),
        Cond::Or(c, d) => may_hold(c.get(), vertices, edges) || may_hold(d.get(), vertices, edges),
        Cond::Shape(pattern) => has_counts(pattern, vertices, edges),
    }
}

/// Whether a condition may fail of a simple graph with so many vertices and edges. Where it says no, the condition
/// holds of each of them.
#[cycle(outcomes)]
pub fn may_fail(cond: &Cond, vertices: u32, edges: u32) -> bool
    requires few_vertices { vertices ≤ 9 }
    requires few_edges { edges ≤ 36 }
    requires within { IsTrue (are_numbers_within cond.now) }
    ensures { result ≡ may_fail cond.now vertices edges }
{
    match cond {
        Cond::True => false,
        Cond::False => true,
        Cond::Compare { sum, op, bound } => {
            may_compare(opposite(*op), sum_bounds(sum, vertices, edges), *bound)
        }
        Cond::Not(c) => may_hold(c.get(), vertices, edges),
        Cond::And(c, d) => may_fail(c.get(), vertices, edges) || may_fail(d.get(), vertices, edges),
        Cond::Or(c, d) => may_fail(c.get(), vertices, edges) && may_fail(d.get(), vertices, edges),
        Cond::Shape(_) => true,
    }
}

/// Whether a pattern has so many vertices and edges.
fn has_counts(pattern: &Pattern, vertices: u32, edges: u32) -> bool
    ensures { result ≡ (eqb vertices (length pattern.now.labels) && eqb edges (length pattern.now.edges)) }
{
    vertices as usize == pattern.labels.len() && edges as usize == pattern.edges.len()
}

/// Whether some number between these of a sum compares so with the bound.
fn may_compare(op: Op, sum: Bounds, bound: u32) -> bool
    ensures { result ≡ comparison_may_hold op sum.least sum.most bound }
{
    match op {
        Op::AtMost => sum.least <= bound,
        Op::Below => sum.least < bound,
        Op::AtLeast => sum.most >= bound,
        Op::Above => sum.most > bound,
        Op::Equal => sum.least <= bound && sum.most >= bound,
        Op::Unequal => sum.least != bound || sum.most != bound,
    }
}

fn opposite(op: Op) -> Op
    ensures { result ≡ opposite op }
{
    match op {
        Op::AtMost => Op::Above,
        Op::Below => Op::AtLeast,
        Op::AtLeast => Op::Below,
        Op::Above => Op::AtMost,
        Op::Equal => Op::Unequal,
        Op::Unequal => Op::Equal,
    }
}
