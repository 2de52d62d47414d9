ghost use Rattle.std.specs.Prelude.{◌≡◌};
ghost use Rattle.line_fields.specs.meaning.Names.{first_names};

use crate::case::{CaseFault, field, number};
use filter_polarity::Program;
use graph_types::{List, Update};
use job_io::{ByteList, LineList};
use line_fields::Names;
use program_grammar::{ProgramFault, read_program};
use std::alloc::Global;
use update_reader::{Item, UpdateFault, read_line};

/// The updates of a group.
pub type Group = List<Update>;

/// The groups of a window and those of another one before it, what they are mined for, and over how many shards.
#[derive(Drop)]
pub struct Job {
    pub shards: u32,
    pub most: u32,
    pub program: Program,
    pub earlier: Vec<Group>,
    pub groups: Vec<Group>,
}

/// `SHARDS MOST / PROGRAM`: a job without a group, and the names of its program.
pub fn read_job(alloc: Global, text: &str) -> Result<(Job, Names), CaseFault> {
    let (numbers, program) = text.split_once(" / ").unwrap_or((text, ""));
    let (shards, most) = field(numbers);
    let mut names = Names::new(alloc)?;
    let job = Job {
        shards: number(shards)?,
        most: number(most)?,
        program: read(alloc, program, &mut names)?,
        earlier: Vec::new(alloc),
        groups: Vec::new(alloc),
    };
    Ok((job, names))
}

/// The program that a text says, in which `;` parts lines.
fn read(alloc: Global, text: &str, names: &mut Names) -> Result<Program, CaseFault>
    requires { names.old ≡ first_names }
{
    let mut lines = LineList::new(alloc);
    for line in text.split(';') {
        lines.push(bytes(alloc, line)?)?;
    }
    lines.push(bytes(alloc, "begin")?)?;
    match read_program(alloc, &lines, names) {
        Ok(program) => Ok(program),
        Err(ProgramFault::NoMemory) => Err(CaseFault::NoMemory),
        Err(_) => Err(CaseFault::BadCase),
    }
}

fn bytes(alloc: Global, text: &str) -> Result<ByteList, CaseFault> {
    let mut bytes = ByteList::new(alloc);
    for byte in text.as_bytes() {
        bytes.push(*byte)?;
    }
    Ok(bytes)
}

/// Groups, parted by commas.
pub fn read_groups(alloc: Global, text: &str, names: &mut Names) -> Result<Vec<Group>, CaseFault> {
    let mut groups = Vec::new(alloc);
    for group in text.split(", ") {
        groups.push(read_group(alloc, group, names)?)?;
    }
    Ok(groups)
}

/// Updates, parted by semicolons.
fn read_group(alloc: Global, text: &str, names: &mut Names) -> Result<Group, CaseFault> {
    let mut updates = List::new(alloc);
    for line in text.split("; ") {
        match read_line(alloc, line.as_bytes(), names) {
            Ok(Item::Update(update)) => updates.push(update)?,
            Err(UpdateFault::NoMemory) => return Err(CaseFault::NoMemory),
            _ => return Err(CaseFault::BadCase),
        }
    }
    Ok(updates)
}
