//! Texts of cases, in which `;` stands for an LF.

use graph_types::NoMemory;
use job_io::{ByteList, CallList, MemorySink};
use std::alloc::Global;

/// The bytes that a case's text means.
pub fn bytes(alloc: Global, text: &str) -> Result<ByteList, NoMemory> {
    let mut bytes = ByteList::new(alloc);
    for byte in text.as_bytes() {
        bytes.push(if *byte == b';' { b'\n' } else { *byte })?;
    }
    Ok(bytes)
}

/// The text that bytes make, or `empty`.
pub fn shown(alloc: Global, bytes: &[u8]) -> Result<String, NoMemory> {
    if bytes.is_empty() {
        return Ok(String::from_str(alloc, "empty")?);
    }
    let mut text = String::new(alloc);
    for byte in bytes {
        text.push(if *byte == b'\n' {
            ';'
        } else {
            char::from(*byte)
        })?;
    }
    Ok(text)
}

/// A sink with room for so many bytes, which takes at most 7 a call.
pub fn sink(alloc: Global, room: usize) -> Result<MemorySink, NoMemory> {
    MemorySink::new(alloc, room, 7, CallList::new(alloc))
}
