ghost use Rattle.std.specs.Prelude.{◌≡◌, ◌↔◌, IsTrue, nat_le};
ghost use Rattle.std.specs.List.{list_all};
ghost use Rattle.conditions.specs.storage.Size.{IsSizeOf};
ghost use Rattle.conditions.specs.meaning.Written.{are_numbers_within, come_in_order, comes_after, is_pair_of, is_pattern_within, is_sum_within, IsWithinLimits, most_times, written_size};

use crate::condition::{Cond, Factor};
use crate::pattern::{Pattern, PatternEdge};
use crate::size::{Size, shape_tokens, sum_tokens};

const MOST_TIMES: u32 = 100;

const MOST_BOUND: u32 = 10_000;

const MOST_FACTORS: usize = 16;

const MOST_PATTERN_VERTICES: usize = 8;

const MOST_DEPTH: u32 = 32;

const MOST_TOKENS: u32 = 512;

impl Cond {
    /// Whether it is no larger than a condition of a program may be: sums of 1 to 16 factors, factors up to
    /// 100, bounds up to 10,000 and, where it is written with no more parentheses than it needs, up to 512
    /// tokens with up to 32 `not` and parentheses open at once. Takes time linear in its size.
    pub fn is_within_limits(&self) -> bool
        ensures { IsTrue result ↔ IsWithinLimits self.now }
    {
        if !self.are_numbers_within() {
            return false;
        }
        let size = self.size();
        size.tokens <= MOST_TOKENS && size.depth <= MOST_DEPTH
    }

    fn are_numbers_within(&self) -> bool
        ensures { result ≡ are_numbers_within self.now }
    {
        match self {
            Cond::True | Cond::False => true,
            Cond::Compare { sum, op: _, bound } => { is_sum_within(sum) && *bound <= MOST_BOUND }
            Cond::Not(c) => c.get().are_numbers_within(),
            Cond::And(c, d) | Cond::Or(c, d) => {
                c.get().are_numbers_within() && d.get().are_numbers_within()
            }
            Cond::Shape(pattern) => pattern.is_within_limits(),
        }
    }

    fn size(&self) -> Size
        requires { IsTrue (are_numbers_within self.now) }
        ensures { IsSizeOf (written_size self.now) result }
    {
        match self {
            Cond::True | Cond::False => Size::of_atom(1),
            Cond::Compare {
                sum,
                op: _,
                bound: _,
            } => Size::of_atom(sum_tokens(sum) + 2),
            Cond::Not(c) => c.get().size().negated(),
            Cond::And(c, d) => c.get().size().and(d.get().size()),
            Cond::Or(c, d) => c.get().size().or(d.get().size()),
            Cond::Shape(pattern) => Size::of_atom(shape_tokens(pattern)),
        }
    }
}

fn is_sum_within(sum: &[Factor]) -> bool
    ensures { result ≡ is_sum_within sum.now }
{
    1 <= sum.len() && sum.len() <= MOST_FACTORS && are_times_within(sum)
}

fn are_times_within(sum: &[Factor]) -> bool
    ensures { result ≡ list_all (λ f. nat_le f.times most_times) sum.now }
{
    sum.iter().all(|f| f.times <= MOST_TIMES)
}

impl Pattern {
    /// Whether it is one that a condition of a program may have: 1 to 8 vertices, and each edge once, ascending. Takes
    /// time linear in its size.
    pub fn is_within_limits(&self) -> bool
        ensures { result ≡ is_pattern_within self.now }
    {
        let vertices = self.labels.len();
        1 <= vertices
            && vertices <= MOST_PATTERN_VERTICES
            && are_pairs_of(vertices as u32, &self.edges)
            && come_in_order(&self.edges)
    }
}

fn are_pairs_of(vertices: u32, edges: &[PatternEdge]) -> bool
    ensures { result ≡ list_all (is_pair_of vertices) edges.now }
{
    edges
        .iter()
        .all(|e| 1 <= e.low && e.low < e.high && e.high <= vertices)
}

fn come_in_order(edges: &[PatternEdge]) -> bool
    ensures { result ≡ come_in_order 0 0 edges.now }
{
    let mut low = 0;
    let mut high = 0;
    for e in edges {
        if !comes_after(low, high, e) {
            return false;
        }
        low = e.low;
        high = e.high;
    }
    true
}

fn comes_after(low: u32, high: u32, e: &PatternEdge) -> bool
    ensures { result ≡ comes_after low high e.now }
{
    low < e.low || (low == e.low && high < e.high)
}
