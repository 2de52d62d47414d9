ghost use Rattle.std.specs.Prelude.{◌≡◌, IsTrue, IfErr};
ghost use Rattle.std.specs.Result.{OkIff};
ghost use Rattle.filter_polarity.specs.meaning.Polarity.{bounds_above, bounds_below, is_falling, is_rising_sum, is_rising_term, is_rising};

use crate::falling_cond::{Falling, NotFalling};
use conditions::{Cond, Factor, Op, Term};
use graph_types::Mode;

/// Takes a condition as falling, or gives it back where it isn't falling in this mode. It follows the
/// condition's form alone, in time linear in its size.
pub fn falling(cond: Cond, mode: Mode) -> Result<Falling, NotFalling>
    ensures falls { OkIff result (IsTrue (is_falling mode cond)) (record { mode = mode; cond = cond }) }
    ensures handed_back { IfErr result (λ e. e.cond ≡ cond) }
{
    if is_falling(mode, &cond) {
        Ok(Falling::new(mode, cond))
    } else {
        Err(NotFalling { cond })
    }
}

#[cycle(polarity)]
fn is_falling(mode: Mode, cond: &Cond) -> bool
    ensures { result ≡ is_falling mode cond.now }
{
    match cond {
        Cond::True | Cond::False => true,
        Cond::Compare { sum, op, bound: _ } => bounds_above(*op) && is_rising_sum(mode, sum),
        Cond::Not(c) => is_rising(mode, c.get()),
        Cond::And(c, d) | Cond::Or(c, d) => is_falling(mode, c.get()) && is_falling(mode, d.get()),
        Cond::Shape(_) => false,
    }
}

#[cycle(polarity)]
fn is_rising(mode: Mode, cond: &Cond) -> bool
    ensures { result ≡ is_rising mode cond.now }
{
    match cond {
        Cond::True | Cond::False => true,
        Cond::Compare { sum, op, bound: _ } => bounds_below(*op) && is_rising_sum(mode, sum),
        Cond::Not(c) => is_falling(mode, c.get()),
        Cond::And(c, d) | Cond::Or(c, d) => is_rising(mode, c.get()) && is_rising(mode, d.get()),
        Cond::Shape(_) => false,
    }
}

fn is_rising_sum(mode: Mode, sum: &[Factor]) -> bool
    ensures { result ≡ is_rising_sum mode sum.now }
{
    sum.iter().all(|factor| is_rising_term(mode, factor.term))
}

fn is_rising_term(mode: Mode, term: Term) -> bool
    ensures { result ≡ is_rising_term mode term }
{
    match term {
        Term::Least => false,
        Term::Missing => mode == Mode::Vertex,
        _ => true,
    }
}

fn bounds_above(op: Op) -> bool
    ensures { result ≡ bounds_above op }
{
    matches!(op, Op::AtMost | Op::Below)
}

fn bounds_below(op: Op) -> bool
    ensures { result ≡ bounds_below op }
{
    matches!(op, Op::AtLeast | Op::Above)
}
