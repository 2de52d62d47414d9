use graph_types::NoMemory;
use std::alloc::{AllocError, AllocFailed};

/// Why a case has no answer.
#[derive(Clone, Copy, Debug)]
pub enum CaseFault {
    /// It is in the form of no table.
    BadCase,
    /// An allocation was refused.
    NoMemory,
}

impl From<NoMemory> for CaseFault {
    fn from(_error: NoMemory) -> CaseFault {
        CaseFault::NoMemory
    }
}

impl From<AllocError> for CaseFault {
    fn from(_error: AllocError) -> CaseFault {
        CaseFault::NoMemory
    }
}

impl<T: Drop> From<AllocFailed<T>> for CaseFault {
    fn from(_error: AllocFailed<T>) -> CaseFault {
        CaseFault::NoMemory
    }
}

/// What stands in a case before its first `/`, and what stands after it.
pub fn parts(text: &str) -> Result<(&str, &str), CaseFault> {
    text.split_once(" / ").ok_or(CaseFault::BadCase)
}

/// The first field of a case, and what stands after it.
pub fn field(text: &str) -> (&str, &str) {
    text.split_once(' ').unwrap_or((text, ""))
}

/// Parts what follows from the answer so far.
pub fn part(answer: &mut String) -> Result<(), CaseFault> {
    if !answer.is_empty() {
        answer.push_str(", ")?;
    }
    Ok(())
}

/// A number that tells how a case is made.
pub fn number(word: &str) -> Result<u32, CaseFault> {
    word.parse::<u32>().ok().ok_or(CaseFault::BadCase)
}
