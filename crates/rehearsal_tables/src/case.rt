use graph_types::NoMemory;
use std::alloc::{AllocError, AllocFailed};

/// Why a case has no answer.
#[derive(Clone, Copy, Debug)]
pub enum CaseFault {
    /// It is in the form of no table.
    BadCase,
    /// An allocation was refused.
    NoMemory,
}

impl From<NoMemory> for CaseFault {
    fn from(_error: NoMemory) -> CaseFault {
        CaseFault::NoMemory
    }
}

impl From<AllocError> for CaseFault {
    fn from(_error: AllocError) -> CaseFault {
        CaseFault::NoMemory
    }
}

impl<T: Drop> From<AllocFailed<T>> for CaseFault {
    fn from(_error: AllocFailed<T>) -> CaseFault {
        CaseFault::NoMemory
    }
}

/// The first field of a case, and what stands after it.
pub fn field(text: &str) -> (&str, &str) {
    text.split_once(' ').unwrap_or((text, ""))
}

pub fn number(word: &str) -> Result<u32, CaseFault> {
    match word.parse::<u32>() {
        Ok(number) => Ok(number),
        Err(_) => Err(CaseFault::BadCase),
    }
}
