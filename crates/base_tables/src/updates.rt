use crate::case::{CaseFault, number, parts};
use crate::text::{Shown, read_text};
use graph_types::{LabelId, Update};
use line_fields::{NameFault, Names, is_label};
use std::alloc::Global;
use std::fmt::Write;
use update_reader::{Item, UpdateFault, read_line};

/// `read LINE`, where the names `_` and `a` are known: what the line says, with the number of its label, and the
/// names that it adds.
pub fn read(alloc: Global, text: &str, answer: &mut String) -> Result<(), CaseFault> {
    let mut names = Names::new(alloc)?;
    add(alloc, &mut names, b"a")?;
    read_with(alloc, &mut names, text, answer)
}

/// `read-full LINE`, where as many names are known as there can be: `_`, and `n1` to `n4095`.
pub fn read_full(alloc: Global, text: &str, answer: &mut String) -> Result<(), CaseFault> {
    let mut names = full_names(alloc)?;
    read_with(alloc, &mut names, text, answer)
}

/// `names WORD .. / NUMBER .. / WORD ..`: the numbers that the names get in turn, the names that have these numbers,
/// and the numbers of these names.
pub fn names(alloc: Global, text: &str, answer: &mut String) -> Result<(), CaseFault> {
    let mut names = Names::new(alloc)?;
    ask_names(alloc, &mut names, text, answer)
}

/// `names-full WORD .. / NUMBER .. / WORD ..`, where as many names are known as there can be.
pub fn names_full(alloc: Global, text: &str, answer: &mut String) -> Result<(), CaseFault> {
    let mut names = full_names(alloc)?;
    ask_names(alloc, &mut names, text, answer)
}

fn ask_names(
    alloc: Global,
    names: &mut Names,
    text: &str,
    answer: &mut String,
) -> Result<(), CaseFault> {
    let (came, text) = parts(text)?;
    let (numbers, words) = parts(text)?;
    answer.push_str("numbers")?;
    for word in came.split_whitespace() {
        intern(alloc, names, word.as_bytes(), answer)?;
    }
    answer.push_str(", names")?;
    for word in numbers.split_whitespace() {
        show_name(names, number(word)?, answer)?;
    }
    answer.push_str(", numbers")?;
    for word in words.split_whitespace() {
        match names.number(word.as_bytes()) {
            Some(label) => write!(answer, " {}", label.0)?,
            None => answer.push_str(" none")?,
        }
    }
    write!(answer, ", {} names", names.count())?;
    Ok(())
}

fn intern(
    alloc: Global,
    names: &mut Names,
    name: &[u8],
    answer: &mut String,
) -> Result<(), CaseFault> {
    if !is_label(name) {
        return Err(CaseFault::BadCase);
    }
    match names.intern(alloc, name) {
        Ok(label) => write!(answer, " {}", label.0)?,
        Err(NameFault::TooManyLabels) => answer.push_str(" too many")?,
        Err(NameFault::NoMemory) => return Err(CaseFault::NoMemory),
    }
    Ok(())
}

fn full_names(alloc: Global) -> Result<Names, CaseFault> {
    let mut names = Names::new(alloc)?;
    for number in 1..4096 {
        let name = format!(in alloc; "n{number}")?;
        add(alloc, &mut names, name.as_bytes())?;
    }
    Ok(names)
}

fn add(alloc: Global, names: &mut Names, name: &[u8]) -> Result<(), CaseFault> {
    let mut number = String::new(alloc);
    intern(alloc, names, name, &mut number)
}

fn read_with(
    alloc: Global,
    names: &mut Names,
    text: &str,
    answer: &mut String,
) -> Result<(), CaseFault> {
    let known = names.count();
    let line = read_text(alloc, text)?;
    match read_line(alloc, line.as_slice(), names) {
        Ok(Item::Nothing) => answer.push_str("nothing")?,
        Ok(Item::Commit) => answer.push_str("commit")?,
        Ok(Item::BatchBegin) => answer.push_str("batch")?,
        Ok(Item::BatchEnd) => answer.push_str("end")?,
        Ok(Item::Update(update)) => show_update(&update, answer)?,
        Err(UpdateFault::BadLine) => answer.push_str("BadLine")?,
        Err(UpdateFault::TooManyLabels) => answer.push_str("Labels")?,
        Err(UpdateFault::NoMemory) => return Err(CaseFault::NoMemory),
    }
    show_new_names(names, known, answer)
}

/// An update as its line says it, with the number of its label.
fn show_update(update: &Update, answer: &mut String) -> Result<(), CaseFault> {
    match update {
        Update::AddVertex { id, label } => write!(answer, "+v {} ={}", id.0, label.0)?,
        Update::RemoveVertex { id } => write!(answer, "-v {}", id.0)?,
        Update::LabelVertex { id, label } => write!(answer, "~v {} ={}", id.0, label.0)?,
        Update::AddEdge { from, to, label } => {
            write!(answer, "+e {} {} ={}", from.0, to.0, label.0)?
        }
        Update::RemoveEdge { from, to } => write!(answer, "-e {} {}", from.0, to.0)?,
        Update::LabelEdge { from, to, label } => {
            write!(answer, "~e {} {} ={}", from.0, to.0, label.0)?
        }
    }
    Ok(())
}

/// The names that came after the first ones.
pub fn show_new_names(names: &Names, known: usize, answer: &mut String) -> Result<(), CaseFault> {
    for number in 0..4_096 {
        if known <= number as usize && (number as usize) < names.count() {
            answer.push_str(", new")?;
            show_name(names, number, answer)?;
        }
    }
    Ok(())
}

fn show_name(names: &Names, number: u32, answer: &mut String) -> Result<(), CaseFault> {
    match names.name(LabelId(number)) {
        Some(name) => write!(answer, " {}", Shown(name))?,
        None => answer.push_str(" none")?,
    }
    Ok(())
}
