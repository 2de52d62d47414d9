ghost use Rattle.std.specs.Prelude.{◌≡◌, ◌≤◌, IsTrue, min};
ghost use Rattle.conditions.specs.meaning.Written.{is_sum_within};
ghost use Rattle.shape_bounds.specs.meaning.Bounds.{least_count, least_value, missing_count, most_count, most_value};

use conditions::{FactorList, Term};

/// Between which numbers a count lies, both included.
#[derive(Clone, Copy)]
pub(crate) struct Bounds {
    pub(crate) least: u32,
    pub(crate) most: u32,
}

/// Between which numbers a sum lies: at most 57,600.
pub(crate) fn sum_bounds(sum: &FactorList, vertices: u32, edges: u32) -> Bounds
    requires few_vertices { vertices ≤ 9 }
    requires few_edges { edges ≤ 36 }
    requires within { IsTrue (is_sum_within sum.now) }
    ensures least { result.least ≡ least_value sum.now vertices edges }
    ensures most { result.most ≡ most_value sum.now vertices edges }
{
    let mut least = 0;
    let mut most = 0;
    for factor in sum.as_slice() {
        let counted = term_bounds(factor.term, vertices, edges);
        least += factor.times * counted.least;
        most += factor.times * counted.most;
    }
    Bounds { least, most }
}

fn term_bounds(term: Term, vertices: u32, edges: u32) -> Bounds
    requires few_vertices { vertices ≤ 9 }
    requires few_edges { edges ≤ 36 }
    ensures least { result.least ≡ least_count term vertices edges }
    ensures most { result.most ≡ most_count term vertices edges }
    ensures least_is_small { result.least ≤ 36 }
    ensures most_is_small { result.most ≤ 36 }
{
    match term {
        Term::Vertices(asked) => match asked {
            Some(_) => up_to(vertices),
            None => exactly(vertices),
        },
        Term::Edges(asked) => match asked {
            Some(_) => up_to(edges),
            None => exactly(edges),
        },
        Term::Joins(_, _) | Term::Degree | Term::Least => up_to(edges),
        Term::Kinds => some_of(vertices),
        Term::Missing => exactly(missing(vertices, edges)),
    }
}

fn exactly(count: u32) -> Bounds
    ensures least { result.least ≡ count }
    ensures most { result.most ≡ count }
{
    Bounds {
        least: count,
        most: count,
    }
}

fn up_to(count: u32) -> Bounds
    ensures least { result.least ≡ 0 }
    ensures most { result.most ≡ count }
{
    Bounds {
        least: 0,
        most: count,
    }
}

fn some_of(count: u32) -> Bounds
    ensures least { result.least ≡ min count 1 }
    ensures most { result.most ≡ count }
{
    Bounds {
        least: count.min(1),
        most: count,
    }
}

/// The pairs of vertices less the edges.
fn missing(vertices: u32, edges: u32) -> u32
    requires { vertices ≤ 9 }
    ensures missing { result ≡ missing_count vertices edges }
    ensures small { result ≤ 36 }
{
    let pairs = vertices * vertices.saturating_sub(1) / 2;
    pairs.saturating_sub(edges)
}
