use crate::case::CaseFault;
use crate::ends::list_bytes;
use crate::text::{Shown, read_text};
use crate::updates::show_new_names;
use job_io::{ByteList, LineList};
use line_fields::Names;
use program_grammar::{
    HeaderReader, HeaderStep, ProgramFault, ProgramKind, Word, read_program, write_program,
};
use std::alloc::Global;
use std::fmt::Write;

/// `header LINE / ..`: what the lines of a header lead to, taken one by one, and the names that they add.
pub fn header(alloc: Global, text: &str, answer: &mut String) -> Result<(), CaseFault> {
    let mut names = Names::new(alloc)?;
    take_lines(alloc, text, &mut names, answer)?;
    show_new_names(&names, 1, answer)
}

/// `third LINE`: what the third line of a header leads to in vertex mode, and in edge mode.
pub fn third(alloc: Global, text: &str, answer: &mut String) -> Result<(), CaseFault> {
    let vertex = format!(in alloc; "mode vertex / size 3 / {text}")?;
    header(alloc, vertex.as_str(), answer)?;
    answer.push_str("; ")?;
    let edge = format!(in alloc; "mode edge / size 3 / {text}")?;
    header(alloc, edge.as_str(), answer)
}

fn take_lines(
    alloc: Global,
    text: &str,
    names: &mut Names,
    answer: &mut String,
) -> Result<(), CaseFault> {
    let mut header = HeaderReader::new();
    let mut number = 0u64;
    for line in text.split(" / ") {
        number = number.saturating_add(1);
        let line = read_text(alloc, line)?;
        match take(alloc, header, line.as_slice(), number, names) {
            Ok(HeaderStep::More(next)) => header = next,
            Ok(HeaderStep::Ready(_)) => {
                write!(answer, "whole at line {number}")?;
                return Ok(());
            }
            Err(fault) => return show_fault(fault, answer),
        }
    }
    show_missing(header.missing(), answer)
}

/// Takes a line where there is room for its labels.
fn take(
    alloc: Global,
    header: HeaderReader,
    line: &[u8],
    number: u64,
    names: &mut Names,
) -> Result<HeaderStep, ProgramFault> {
    if names.count() > 3_584 {
        return Err(ProgramFault::NoMemory);
    }
    header.take(alloc, line, number, names)
}

/// `program LINE / ..`: the program that the lines say, written again, or why they are refused.
pub fn program(alloc: Global, text: &str, answer: &mut String) -> Result<(), CaseFault> {
    match rewrite(alloc, text)? {
        Ok(lines) => show_lines(lines.as_slice(), answer),
        Err(fault) => show_fault(fault, answer),
    }
}

/// `condition TEXT`: the same of a program that matches this condition.
pub fn condition(alloc: Global, text: &str, answer: &mut String) -> Result<(), CaseFault> {
    let lines = "mode vertex / size 3 / filter true";
    let text = format!(in alloc; "{lines} / match {text} / begin")?;
    match rewrite(alloc, text.as_str())? {
        Ok(lines) => {
            let line = lines.as_slice().get(3).ok_or(CaseFault::BadCase)?;
            write!(answer, "{}", Shown(line.as_slice()))?;
            Ok(())
        }
        Err(fault) => show_fault(fault, answer),
    }
}

/// Reads a program, and writes it.
fn rewrite(alloc: Global, text: &str) -> Result<Result<LineList, ProgramFault>, CaseFault> {
    let lines = read_lines(alloc, text)?;
    let mut names = Names::new(alloc)?;
    if names.count() > 3_072 {
        return Err(CaseFault::BadCase);
    }
    match read_program(alloc, &lines, &mut names) {
        Ok(program) => Ok(Ok(write_program(alloc, &program, &names)?)),
        Err(fault) => Ok(Err(fault)),
    }
}

fn read_lines(alloc: Global, text: &str) -> Result<LineList, CaseFault> {
    let mut lines = LineList::new(alloc);
    for line in text.split(" / ") {
        let line = read_text(alloc, line)?;
        lines.push(list_bytes(alloc, line.as_slice())?)?;
    }
    Ok(lines)
}

fn show_lines(lines: &[ByteList], answer: &mut String) -> Result<(), CaseFault> {
    for (place, line) in lines.iter().enumerate() {
        if place > 0 {
            answer.push_str(" / ")?;
        }
        write!(answer, "{}", Shown(line.as_slice()))?;
    }
    Ok(())
}

fn show_fault(fault: ProgramFault, answer: &mut String) -> Result<(), CaseFault> {
    match fault {
        ProgramFault::Refused {
            kind: ProgramKind::Missing(word),
            ..
        } => show_missing(word, answer),
        ProgramFault::Refused { line, kind } => {
            write!(answer, "line {line}: {kind:?}")?;
            Ok(())
        }
        ProgramFault::NoMemory => Err(CaseFault::NoMemory),
    }
}

fn show_missing(word: Word, answer: &mut String) -> Result<(), CaseFault> {
    write!(answer, "Missing {word}")?;
    Ok(())
}
