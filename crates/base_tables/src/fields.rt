use crate::case::{CaseFault, field, number, part};
use crate::text::{Shown, read_text};
use line_fields::{is_label, is_label_byte, is_label_start, is_nothing, read_id, read_number};
use std::alloc::Global;
use std::fmt::Write;

/// `words TEXT`
pub fn words(alloc: Global, text: &str, answer: &mut String) -> Result<(), CaseFault> {
    let line = read_text(alloc, text)?;
    let count = job_io::words(line.as_slice());
    write!(answer, "{count}")?;
    for place in 0..count {
        if let Some(word) = job_io::word(line.as_slice(), place) {
            write!(answer, " [{}]", Shown(word))?;
        }
    }
    if job_io::word(line.as_slice(), count).is_some() {
        answer.push_str(" and more")?;
    }
    Ok(())
}

/// `rest COUNT TEXT`: what stands after so many words.
pub fn rest(alloc: Global, text: &str, answer: &mut String) -> Result<(), CaseFault> {
    let (count, text) = field(text);
    let line = read_text(alloc, text)?;
    let rest = job_io::rest(line.as_slice(), number(count)? as usize);
    write!(answer, "[{}]", Shown(rest))?;
    Ok(())
}

/// `trim TEXT`
pub fn trim(alloc: Global, text: &str, answer: &mut String) -> Result<(), CaseFault> {
    let line = read_text(alloc, text)?;
    write!(answer, "[{}]", Shown(job_io::trim_start(line.as_slice())))?;
    Ok(())
}

/// `nothing TEXT`: whether a line says nothing.
pub fn nothing(alloc: Global, text: &str, answer: &mut String) -> Result<(), CaseFault> {
    let line = read_text(alloc, text)?;
    say(is_nothing(line.as_slice()), answer)
}

/// `number DIGITS TEXT`: the number of at most so many digits.
pub fn read(alloc: Global, text: &str, answer: &mut String) -> Result<(), CaseFault> {
    let (digits, text) = field(text);
    let word = read_text(alloc, text)?;
    match read_number(word.as_slice(), number(digits)? as usize) {
        Some(number) => write!(answer, "{number}")?,
        None => answer.push_str("none")?,
    }
    Ok(())
}

/// `id TEXT`
pub fn id(alloc: Global, text: &str, answer: &mut String) -> Result<(), CaseFault> {
    let word = read_text(alloc, text)?;
    match read_id(word.as_slice()) {
        Some(id) => write!(answer, "{}", id.0)?,
        None => answer.push_str("none")?,
    }
    Ok(())
}

/// `is-label TEXT`
pub fn label(alloc: Global, text: &str, answer: &mut String) -> Result<(), CaseFault> {
    let word = read_text(alloc, text)?;
    say(is_label(word.as_slice()), answer)
}

/// `label-bytes TEXT`: where in a label each byte may stand.
pub fn label_bytes(alloc: Global, text: &str, answer: &mut String) -> Result<(), CaseFault> {
    let bytes = read_text(alloc, text)?;
    for b in bytes.as_slice() {
        part(answer)?;
        answer.push_str(match (is_label_start(*b), is_label_byte(*b)) {
            (true, true) => "first",
            (false, true) => "later",
            (false, false) => "nowhere",
            (true, false) => "first alone",
        })?;
    }
    Ok(())
}

fn say(holds: bool, answer: &mut String) -> Result<(), CaseFault> {
    answer.push_str(if holds { "yes" } else { "no" })?;
    Ok(())
}
