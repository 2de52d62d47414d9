//! Conditions that are larger than any that is read.

use crate::programs::matching;
use conditions::{Boxed, Cond, Factor, FactorList, Op};
use graph_types::NoMemory;
use line_fields::Names;
use std::alloc::{AllocError, Global};

/// How a condition is made from one term.
#[derive(Clone, Copy)]
struct Shape {
    /// How many factors its sum has, how often each takes the term, and the bound.
    factors: usize,
    times: u32,
    bound: u32,
    /// How many `and true` follow the sum, how many `true or` before that, and then how many `not`.
    ands: usize,
    ors: usize,
    nots: usize,
}

/// Whether a condition that is made from a term is within the limits.
pub fn limited(
    alloc: Global,
    names: &mut Names,
    head: &str,
    term: &str,
) -> Result<String, NoMemory> {
    let Some(shape) = read_shape(head) else {
        return Ok(String::from_str(alloc, "no such table")?);
    };
    let cond = format!(in alloc; "{term} <= 0")?;
    let Ok(program) = matching(alloc, names, cond.as_str())? else {
        return Ok(String::from_str(alloc, "refused")?);
    };
    let cond = made(alloc, &shape, program.matching())?;
    let answer = if cond.is_within_limits() {
        "within"
    } else {
        "beyond"
    };
    Ok(String::from_str(alloc, answer)?)
}

/// `limits FACTORS TIMES BOUND ANDS ORS NOTS`
fn read_shape(head: &str) -> Option<Shape> {
    let mut words = head.split(' ');
    if words.next()? != "limits" {
        return None;
    }
    Some(Shape {
        factors: words.next()?.parse::<usize>().ok()?,
        times: words.next()?.parse::<u32>().ok()?,
        bound: words.next()?.parse::<u32>().ok()?,
        ands: words.next()?.parse::<usize>().ok()?,
        ors: words.next()?.parse::<usize>().ok()?,
        nots: words.next()?.parse::<usize>().ok()?,
    })
}

fn made(alloc: Global, shape: &Shape, compared: &Cond) -> Result<Cond, NoMemory> {
    let mut sum = FactorList::new(alloc);
    if let Cond::Compare { sum: one, .. } = compared {
        for factor in one.as_slice() {
            push_times(&mut sum, factor, shape)?;
        }
    }
    let mut cond = Cond::Compare {
        sum,
        op: Op::AtMost,
        bound: shape.bound,
    };
    for _ in 0..shape.ands {
        cond = Cond::And(Boxed::new(alloc, cond)?, Boxed::new(alloc, Cond::True)?);
    }
    for _ in 0..shape.ors {
        cond = Cond::Or(Boxed::new(alloc, Cond::True)?, Boxed::new(alloc, cond)?);
    }
    for _ in 0..shape.nots {
        cond = Cond::Not(Boxed::new(alloc, cond)?);
    }
    Ok(cond)
}

fn push_times(sum: &mut FactorList, factor: &Factor, shape: &Shape) -> Result<(), NoMemory> {
    for _ in 0..shape.factors {
        sum.push(Factor {
            times: shape.times,
            term: factor.term,
        })?;
    }
    Ok(())
}
