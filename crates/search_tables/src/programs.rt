//! Programs and conditions that are read.
use filter_polarity::Program;
use graph_types::NoMemory;
use job_io::{ByteList, LineList};
use line_fields::Names;
use program_grammar::{ProgramFault, read_program};
use std::alloc::{AllocError, Global};

/// How many names leave room for those of a program.
const MANY_NAMES: usize = 3_000;

/// The program that the lines of a text say.
pub fn read(
    alloc: Global,
    names: &mut Names,
    text: &str,
) -> Result<Result<Program, ProgramFault>, NoMemory> {
    let mut lines = LineList::new(alloc);
    for line in text.split(';') {
        lines.push(bytes(alloc, line)?)?;
    }
    if names.count() > MANY_NAMES {
        return Err(NoMemory);
    }
    Ok(read_program(alloc, &lines, names))
}

/// The program that matches a condition.
pub fn matching(
    alloc: Global,
    names: &mut Names,
    cond: &str,
) -> Result<Result<Program, ProgramFault>, NoMemory> {
    let text = format!(in alloc; "mode vertex;size 1;filter true;match {cond};begin")?;
    read(alloc, names, text.as_str())
}

fn bytes(alloc: Global, text: &str) -> Result<ByteList, NoMemory> {
    let mut bytes = ByteList::new(alloc);
    for byte in text.as_bytes() {
        bytes.push(*byte)?;
    }
    Ok(bytes)
}

/// Puts a word after others.
pub fn push_word(text: &mut String, word: &str) -> Result<(), AllocError> {
    if !text.is_empty() {
        text.push(' ')?;
    }
    text.push_str(word)
}
