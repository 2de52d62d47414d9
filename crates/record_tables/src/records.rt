//! Records that are read and written.

use crate::case::Case;
use crate::text::{shown, sink};
use graph_types::{NoMemory, PieceList, Stamp};
use job_io::{MemorySink, Page, WriteFault};
use record_text::{RecordLine, read_record, write_delta, write_done, write_head, write_listing};
use std::alloc::Global;

/// What lines say: whether one is the first line of format 2; the pieces that go, those that come, and the
/// timestamp of the last of them; and which timestamp is done, if one is, with its count if it has one.
#[derive(Drop)]
struct Changes {
    head: bool,
    rem: PieceList,
    add: PieceList,
    stamp: Stamp,
    done: Option<Stamp>,
    count: Option<u64>,
}

impl Changes {
    fn take(&mut self, said: &RecordLine) -> Result<(), NoMemory> {
        match said {
            RecordLine::Nothing => {}
            RecordLine::Head => self.head = true,
            RecordLine::Rem { stamp, piece } => {
                self.stamp = *stamp;
                self.rem.push(*piece)?;
            }
            RecordLine::Add { stamp, piece } => {
                self.stamp = *stamp;
                self.add.push(*piece)?;
            }
            RecordLine::Done { stamp, count } => {
                self.done = Some(*stamp);
                self.count = *count;
            }
        }
        Ok(())
    }
}

/// Reads a line, and writes the record that it says.
pub fn read(alloc: Global, case: &Case) -> Result<String, NoMemory> {
    match read_record(case.text.as_bytes()) {
        Err(_) => Ok(String::from_str(alloc, "in no form")?),
        Ok(RecordLine::Nothing) => Ok(String::from_str(alloc, "nothing")?),
        Ok(_) => write(alloc, case),
    }
}

/// Writes the records of a timestamp to a sink that has room for `room` bytes, through a page that holds
/// `held` bytes before. What was written after these is told.
pub fn write(alloc: Global, case: &Case) -> Result<String, NoMemory> {
    let changes = changes_of(alloc, case.text)?;
    let held = case.size("held", 0);
    let mut sink = sink(alloc, case.size("room", 1000))?;
    let mut page = Page::new();
    let result = match fill(&mut sink, &mut page, held) {
        Ok(()) => write_changes(&mut sink, &mut page, &changes),
        Err(fault) => Err(fault),
    };
    written(alloc, &sink, held, result)
}

/// Lists the pieces of records, each on a line.
pub fn list(alloc: Global, case: &Case) -> Result<String, NoMemory> {
    let changes = changes_of(alloc, case.text)?;
    listed(alloc, &changes.add, case.size("room", 1000))
}

/// The listing of pieces, in a sink that has room for so many bytes.
pub fn listed(alloc: Global, pieces: &PieceList, room: usize) -> Result<String, NoMemory> {
    let mut sink = sink(alloc, room)?;
    let mut page = Page::new();
    let result = match write_listing(&mut sink, &mut page, pieces) {
        Ok(()) => page.send(&mut sink),
        Err(fault) => Err(fault),
    };
    written(alloc, &sink, 0, result)
}

fn changes_of(alloc: Global, text: &str) -> Result<Changes, NoMemory> {
    let mut changes = Changes {
        head: false,
        rem: PieceList::new(alloc),
        add: PieceList::new(alloc),
        stamp: Stamp(0),
        done: None,
        count: None,
    };
    for line in text.split(';') {
        if let Ok(said) = read_record(line.as_bytes()) {
            changes.take(&said)?;
        }
    }
    Ok(changes)
}

fn fill(sink: &mut MemorySink, page: &mut Page, held: usize) -> Result<(), WriteFault> {
    for _ in 0..held {
        page.put(sink, b"x")?;
    }
    Ok(())
}

fn write_changes(
    sink: &mut MemorySink,
    page: &mut Page,
    changes: &Changes,
) -> Result<(), WriteFault> {
    if changes.head {
        write_head(sink, page)?;
    }
    write_delta(sink, page, changes.stamp, &changes.rem, &changes.add)?;
    if let Some(stamp) = changes.done {
        write_done(sink, page, stamp, changes.count)?;
    }
    page.send(sink)
}

/// What a sink has after its first bytes, and whether it refused more.
fn written(
    alloc: Global,
    sink: &MemorySink,
    first: usize,
    outcome: Result<(), WriteFault>,
) -> Result<String, NoMemory> {
    let mut text = shown(alloc, sink.bytes().get(first..).unwrap_or(&[]))?;
    if outcome.is_err() {
        text.push_str(" write fault")?;
    }
    Ok(text)
}
