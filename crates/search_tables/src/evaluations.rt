//! Conditions on a picture. A text has several, parted by `;`.
ghost use Rattle.std.specs.Prelude.{◌≡◌, nat_le};
ghost use Rattle.std.specs.List.{list_all};
ghost use Rattle.conditions.specs.meaning.Written.{is_sum_within, most_times};

use crate::programs::{matching, push_word, read};
use cond_eval::{holds, keeps, passes, value};
use conditions::{Cond, Factor, FactorList};
use filter_polarity::Program;
use graph_types::NoMemory;
use line_fields::Names;
use picture::Picture;
use std::alloc::{AllocError, Global};

/// What sums come to in a picture.
pub fn values(
    alloc: Global,
    picture: &Picture,
    names: &mut Names,
    text: &str,
) -> Result<String, NoMemory> {
    let mut answers = String::new(alloc);
    for sum in text.split(';') {
        let cond = format!(in alloc; "{sum} <= 0")?;
        match matching(alloc, names, cond.as_str())? {
            Ok(program) => push_value(alloc, &mut answers, picture, &program)?,
            Err(_) => push_word(&mut answers, "refused")?,
        }
    }
    Ok(answers)
}

/// Which conditions hold of a picture.
pub fn held(
    alloc: Global,
    picture: &Picture,
    names: &mut Names,
    text: &str,
) -> Result<String, NoMemory> {
    let mut answers = String::new(alloc);
    for cond in text.split(';') {
        let answer = match matching(alloc, names, cond)? {
            Ok(program) => yes_or_no(holds(program.matching(), picture)),
            Err(_) => "refused",
        };
        push_word(&mut answers, answer)?;
    }
    Ok(answers)
}

/// Whether a picture passes the filter of a program, and whether it is kept.
pub fn kept(
    alloc: Global,
    picture: &Picture,
    names: &mut Names,
    text: &str,
) -> Result<String, NoMemory> {
    let Ok(program) = read(alloc, names, text)? else {
        return Ok(String::from_str(alloc, "refused")?);
    };
    let passes = yes_or_no(passes(program.filter(), picture));
    let keeps = yes_or_no(keeps(&program, picture));
    Ok(format!(in alloc; "{passes} {keeps}")?)
}

/// In which modes conditions are falling.
pub fn falling_modes(alloc: Global, names: &mut Names, text: &str) -> Result<String, NoMemory> {
    let mut answers = String::new(alloc);
    for cond in text.split(';') {
        let in_vertex = is_falling(alloc, names, "vertex", cond)?;
        let in_edge = is_falling(alloc, names, "edge", cond)?;
        push_word(
            &mut answers,
            match (in_vertex, in_edge) {
                (true, true) => "both",
                (true, false) => "vertex",
                (false, true) => "edge",
                (false, false) => "neither",
            },
        )?;
    }
    Ok(answers)
}

/// Whether a program of a mode has the condition as its filter.
fn is_falling(alloc: Global, names: &mut Names, mode: &str, cond: &str) -> Result<bool, NoMemory> {
    let text = format!(in alloc; "mode {mode};size 1;filter {cond};match true;begin")?;
    Ok(read(alloc, names, text.as_str())?.is_ok())
}

fn push_value(
    alloc: Global,
    answers: &mut String,
    picture: &Picture,
    program: &Program,
) -> Result<(), AllocError> {
    match program.matching() {
        Cond::Compare {
            sum,
            op: _,
            bound: _,
        } if is_within(sum) => {
            let value = value(sum, picture);
            push_word(answers, format!(in alloc; "{value}")?.as_str())
        }
        _ => push_word(answers, "refused"),
    }
}

fn is_within(sum: &FactorList) -> bool
    ensures { result ≡ is_sum_within sum.now }
{
    let factors = sum.as_slice();
    1 <= factors.len() && factors.len() <= 16 && are_times_within(factors)
}

fn are_times_within(factors: &[Factor]) -> bool
    ensures { result ≡ list_all (λ f. nat_le f.times most_times) factors.now }
{
    factors.iter().all(|factor| factor.times <= 100)
}

fn yes_or_no(answer: bool) -> &'static str {
    if answer { "yes" } else { "no" }
}
