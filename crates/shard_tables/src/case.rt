ghost use Rattle.std.specs.Prelude.{◌≤◌, IfOk};

use graph_types::{LabelId, NoMemory, Stamp, VertexId};
use std::alloc::{AllocError, AllocFailed};

/// Why a case has no answer.
#[derive(Clone, Copy, Debug)]
pub enum CaseFault {
    /// It is in the form of no table, or asks for what is not told.
    BadCase,
    /// An allocation was refused.
    NoMemory,
}

impl From<NoMemory> for CaseFault {
    fn from(_error: NoMemory) -> CaseFault {
        CaseFault::NoMemory
    }
}

impl From<AllocError> for CaseFault {
    fn from(_error: AllocError) -> CaseFault {
        CaseFault::NoMemory
    }
}

impl<T: Drop> From<AllocFailed<T>> for CaseFault {
    fn from(_error: AllocFailed<T>) -> CaseFault {
        CaseFault::NoMemory
    }
}

/// The first field of a case, and what stands after it.
pub fn field(text: &str) -> (&str, &str) {
    text.split_once(' ').unwrap_or((text, ""))
}

/// A number of shards.
pub fn shard_count(word: &str) -> Result<u32, CaseFault>
    ensures { IfOk result (λ count. 1 ≤ count) }
{
    match word.parse::<u32>() {
        Ok(count) if count > 0 => Ok(count),
        _ => Err(CaseFault::BadCase),
    }
}

pub fn vertex(word: &str) -> Result<VertexId, CaseFault> {
    match word.parse::<u32>() {
        Ok(number) => Ok(VertexId(number)),
        Err(_) => Err(CaseFault::BadCase),
    }
}

pub fn stamp(word: &str) -> Result<Stamp, CaseFault> {
    match word.parse::<u64>() {
        Ok(number) => Ok(Stamp(number)),
        Err(_) => Err(CaseFault::BadCase),
    }
}

/// The number of a label, or `none`.
pub fn label(word: &str) -> Result<Option<LabelId>, CaseFault> {
    if word == "none" {
        return Ok(None);
    }
    match word.parse::<u32>() {
        Ok(number) => Ok(Some(LabelId(number))),
        Err(_) => Err(CaseFault::BadCase),
    }
}
