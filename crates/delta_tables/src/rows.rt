use crate::case::compare;
use crate::catches::catch;
use crate::one_update::tell;
use crate::windows::mine;
use graph_types::NoMemory;
use std::alloc::{AllocError, Global};
use std::sync::Wait;

/// What a row comes to. Its first word says which table it is of: `update`, `catch`, `windows`, or made
/// graphs where it is a number.
pub fn answer<R: Wait>(rt: &R, alloc: Global, line: &str) -> Result<String, AllocError> {
    let (table, text) = line.split_once(' ').unwrap_or((line, ""));
    let answer = match table {
        "update" => tell(alloc, text),
        "catch" => catch(alloc, text),
        "windows" => mine(rt, alloc, text),
        _ => compare(alloc, line),
    };
    match answer {
        Ok(answer) => Ok(answer),
        Err(NoMemory) => String::from_str(alloc, "out of memory"),
    }
}
