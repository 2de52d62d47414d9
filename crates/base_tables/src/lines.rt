use crate::case::{CaseFault, field, number, part};
use crate::ends::read_source;
use crate::text::{Shown, read_text};
use job_io::{LineFault, LineReader};
use std::alloc::Global;
use std::fmt::Write;

/// `lines MOST STEP FAILING .. / TEXT`: each line with its number, up to the end or a fault.
pub fn lines(alloc: Global, text: &str, answer: &mut String) -> Result<(), CaseFault> {
    let (most, text) = field(text);
    let most = number(most)?;
    let mut source = read_source(alloc, text)?;
    let mut reader = LineReader::new(alloc, u64::from(most))?;
    for _ in 0..=most {
        if !reader.live() {
            break;
        }
        part(answer)?;
        match reader.next(&mut source) {
            Ok(true) => show_line(&reader, answer)?,
            Ok(false) => answer.push_str("end")?,
            Err(LineFault::ReadFault) => answer.push_str("read fault")?,
            Err(LineFault::TooLong(number)) => write!(answer, "{number} too long")?,
            Err(LineFault::TooMany(number)) => write!(answer, "{number} too many")?,
        }
    }
    Ok(())
}

fn show_line(reader: &LineReader, answer: &mut String) -> Result<(), CaseFault> {
    write!(answer, "{} [{}]", reader.number(), Shown(reader.bytes()))?;
    if !reader.whole() {
        answer.push_str(" torn")?;
    }
    if reader.ready() {
        answer.push_str(" ready")?;
    }
    Ok(())
}
