use crate::case::CaseFault;
use graph_types::{FetchStop, LabelId, Pair};
use std::fmt::Write;

/// Parts what is shown already, if anything is, from what comes next.
pub fn separate(answer: &mut String) -> Result<(), CaseFault> {
    if !answer.is_empty() {
        answer.push_str("; ")?;
    }
    Ok(())
}

/// What a view gave, and how often it was read: `reads 1: none -> 5`.
pub fn show_fetched(
    fetched: Result<Pair, FetchStop>,
    reads: u64,
    answer: &mut String,
) -> Result<(), CaseFault> {
    write!(answer, "reads {reads}: ")?;
    match fetched {
        Ok(pair) => show_pair(&pair, answer),
        Err(FetchStop::NoMemory) => Err(CaseFault::NoMemory),
        Err(FetchStop::Held(_)) => {
            answer.push_str("held")?;
            Ok(())
        }
    }
}

/// The labels before and after, and each neighbour with those of its edge, as `none -> 5, to 2 none -> 0`.
pub fn show_pair(pair: &Pair, answer: &mut String) -> Result<(), CaseFault> {
    show_step(pair.before, pair.after, answer)?;
    for near in pair.near.as_slice() {
        write!(answer, ", to {} ", near.to.0)?;
        show_step(near.before, near.after, answer)?;
    }
    Ok(())
}

fn show_step(
    before: Option<LabelId>,
    after: Option<LabelId>,
    answer: &mut String,
) -> Result<(), CaseFault> {
    show_label(before, answer)?;
    answer.push_str(" -> ")?;
    show_label(after, answer)
}

fn show_label(label: Option<LabelId>, answer: &mut String) -> Result<(), CaseFault> {
    match label {
        Some(label) => write!(answer, "{}", label.0)?,
        None => answer.push_str("none")?,
    }
    Ok(())
}
