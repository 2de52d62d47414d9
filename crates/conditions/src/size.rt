ghost use Rattle.std.specs.Prelude.{◌≡◌, ◌≤◌, IsTrue, length, sum_by};
ghost use Rattle.conditions.specs.meaning.Written.{factor_tokens, is_pattern_within, most_factors, pair_tokens, shape_tokens, sum_tokens, term_tokens};

use crate::condition::{Factor, Term};
use crate::pattern::{Pattern, PatternEdge};
use graph_types::LabelId;

/// Of a condition as it is written with no more parentheses than it needs: how tightly it binds, how many
/// tokens it has, and how many `not` and parentheses are open in it at once. Counts stop at the last `u32`.
#[derive(Clone, Copy)]
pub(crate) struct Size {
    pub(crate) binding: u8,
    pub(crate) tokens: u32,
    pub(crate) depth: u32,
}

impl Size {
    ghost use Rattle.std.specs.Prelude.{ℕ, ◌≡◌, ◌+◌, ◌≤◌, length, min, max};
    ghost use Rattle.conditions.specs.storage.Size.{IsSizeOf};
    ghost use Rattle.conditions.specs.meaning.Written.{WrittenSize, depth_at, tokens_at, written_size_by};
    ghost use Rattle.conditions.specs.declared.condition.Cond.TheOpen as form;

    /// What is no `not`, `and` or `or`.
    pub(crate) fn of_atom(tokens: u32) -> Size
        ensures { IsSizeOf (record { binding = 2; tokens = tokens; depth = 0 }) result }
    {
        Size {
            binding: 2,
            tokens,
            depth: 0,
        }
    }

    /// The negation of a condition of this size.
    pub(crate) fn negated(self) -> Size
        ensures { (c : WrittenSize) → IsSizeOf c self → IsSizeOf (written_size_by (form.Not c)) result }
    {
        let operand = self.at(2);
        Size {
            binding: 2,
            tokens: operand.tokens.saturating_add(1),
            depth: operand.depth.saturating_add(1),
        }
    }

    /// Two conditions with `and` between them.
    pub(crate) fn and(self, other: Size) -> Size
        ensures { (c d : WrittenSize) → IsSizeOf c self → IsSizeOf d other →
            IsSizeOf (written_size_by (form.And c d)) result }
    {
        self.at(1).beside(1, other.at(2))
    }

    /// Two conditions with `or` between them.
    pub(crate) fn or(self, other: Size) -> Size
        ensures { (c d : WrittenSize) → IsSizeOf c self → IsSizeOf d other →
            IsSizeOf (written_size_by (form.Or c d)) result }
    {
        self.at(0).beside(0, other.at(1))
    }

    /// With parentheses, where it binds less than its place asks.
    fn at(self, asked: u8) -> Size
        ensures { (c : WrittenSize) → IsSizeOf c self →
            IsSizeOf (record { binding = c.binding; tokens = tokens_at asked c; depth = depth_at asked c }) result }
    {
        if self.binding < asked {
            Size {
                binding: self.binding,
                tokens: self.tokens.saturating_add(2),
                depth: self.depth.saturating_add(1),
            }
        } else {
            self
        }
    }

    /// Both with a word between them.
    fn beside(self, binding: u8, other: Size) -> Size
        ensures { (c d : WrittenSize) → IsSizeOf c self → IsSizeOf d other →
            IsSizeOf (record { binding = binding; tokens = c.tokens + 1 + d.tokens; depth = max c.depth d.depth }) result }
    {
        Size {
            binding,
            tokens: self.tokens.saturating_add(1).saturating_add(other.tokens),
            depth: self.depth.max(other.depth),
        }
    }
}

/// The tokens of a sum.
pub(crate) fn sum_tokens(sum: &[Factor]) -> u32
    requires { length sum.now ≤ most_factors }
    ensures tokens { result ≡ sum_tokens sum.now }
    ensures few { result ≤ 143 }
{
    let pluses = sum.len().saturating_sub(1) as u32;
    tokens_of_all(sum) + pluses
}

fn tokens_of_all(sum: &[Factor]) -> u32
    requires { length sum.now ≤ most_factors }
    ensures { result ≡ sum_by factor_tokens sum.now }
{
    sum.iter().map(factor_tokens).sum()
}

fn factor_tokens(factor: &Factor) -> u32
    ensures tokens { result ≡ factor_tokens factor.now }
    ensures few { result ≤ 8 }
{
    let before = if factor.times == 1 { 0 } else { 2 };
    term_tokens(factor.term) + before
}

fn term_tokens(term: Term) -> u32
    ensures tokens { result ≡ term_tokens term }
    ensures few { result ≤ 6 }
{
    match term {
        Term::Vertices(Some(_)) | Term::Edges(Some(_)) => 4,
        Term::Joins(_, _) => 6,
        _ => 1,
    }
}

/// The tokens of a shape with this pattern.
pub(crate) fn shape_tokens(pattern: &Pattern) -> u32
    requires { IsTrue (is_pattern_within pattern.now) }
    ensures { result ≡ shape_tokens pattern.now }
{
    let labels = pattern.labels.len() as u32;
    let commas = labels.saturating_sub(1) + pattern.edges.len().saturating_sub(1) as u32;
    4 + labels + tokens_of_pairs(&pattern.edges) + commas
}

fn tokens_of_pairs(edges: &[PatternEdge]) -> u32
    requires { length edges.now ≤ 72 }
    ensures { result ≡ sum_by pair_tokens edges.now }
{
    edges.iter().map(pair_tokens).sum()
}

fn pair_tokens(edge: &PatternEdge) -> u32
    ensures tokens { result ≡ pair_tokens edge.now }
    ensures few { result ≤ 3 }
{
    if edge.label == LabelId(0) { 2 } else { 3 }
}
