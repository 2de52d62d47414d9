ghost use Rattle.std.specs.Prelude.{◌≡◌};
ghost use Rattle.label_needs.specs.meaning.Needs.{needs_vertex_labels, sum_needs_labels, term_needs_labels};

use conditions::{Cond, Factor, Term};

/// Whether a condition names a term that looks at labels of vertices, or a shape. Takes time linear in the condition's size.
pub fn needs_vertex_labels(cond: &Cond) -> bool
    ensures { result ≡ needs_vertex_labels cond.now }
{
    match cond {
        Cond::True | Cond::False => false,
        Cond::Compare {
            sum,
            op: _,
            bound: _,
        } => sum_needs_labels(sum),
        Cond::Not(c) => needs_vertex_labels(c.get()),
        Cond::And(c, d) | Cond::Or(c, d) => {
            needs_vertex_labels(c.get()) || needs_vertex_labels(d.get())
        }
        Cond::Shape(_) => true,
    }
}

fn sum_needs_labels(sum: &[Factor]) -> bool
    ensures { result ≡ sum_needs_labels sum.now }
{
    sum.iter().any(|factor| term_needs_labels(factor.term))
}

fn term_needs_labels(term: Term) -> bool
    ensures { result ≡ term_needs_labels term }
{
    match term {
        Term::Vertices(asked) => asked.is_some(),
        Term::Joins(_, _) | Term::Kinds => true,
        Term::Edges(_) | Term::Degree | Term::Missing | Term::Least => false,
    }
}
