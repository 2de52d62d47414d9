//! Texts of records that are folded, whole or record by record, and migrated.

ghost use Rattle.std.specs.Prelude.{◌≤◌};

use crate::case::Case;
use crate::records::listed;
use crate::text::{bytes, shown, sink};
use graph_types::{NoMemory, PieceList, Stamp};
use job_io::{ByteList, CallList, MemorySource};
use record_migration::{MigrationStop, migrate_records};
use record_text::read_record;
use snapshot_fold::{Fold, FoldFault, FoldRefusal, FoldStop, fold_records};
use std::alloc::Global;

/// Folds a text, and so many `#` after it (`filled`), of at most `most` lines, up to timestamp `at` or to
/// its end. The source fails at the call `fails`.
pub fn fold(alloc: Global, case: &Case) -> Result<String, NoMemory> {
    let mut bytes = bytes(alloc, case.text)?;
    for _ in 0..case.size("filled", 0) {
        bytes.push(b'#')?;
    }
    folded(alloc, case, bytes)
}

/// Folds each prefix of a text. What the first bytes come to is told where it is another than what one
/// byte less comes to.
pub fn cuts(alloc: Global, case: &Case) -> Result<String, NoMemory> {
    let whole = bytes(alloc, case.text)?;
    let mut answers = String::new(alloc);
    let mut last = String::new(alloc);
    for len in 0..=whole.len() {
        let answer = folded(alloc, case, prefix(alloc, whole.as_slice(), len)?)?;
        if answer != last {
            answers.push_str(format!(in alloc; "[{len} {answer}]")?.as_str())?;
            last = answer;
        }
    }
    Ok(answers)
}

/// Begins anew for `take`.
pub fn start(alloc: Global, fold: &mut Fold) -> Result<String, NoMemory> {
    *fold = Fold::new(alloc);
    Ok(String::from_str(alloc, "started")?)
}

/// Takes the next record: the fault of one that is refused, and the pieces at the last timestamp that is
/// done.
pub fn take(alloc: Global, case: &Case, fold: &mut Fold) -> Result<String, NoMemory> {
    let Ok(record) = read_record(case.text.as_bytes()) else {
        return Ok(String::from_str(alloc, "in no form")?);
    };
    let result = fold.take(&record);
    let pieces = listed(alloc, &fold.listing(alloc)?, 1000)?;
    let done = fold.done().0;
    let told = match result {
        Ok(()) => String::new(alloc),
        Err(fault) => fault_text(alloc, fault)?,
    };
    Ok(format!(in alloc; "{told}done {done} {pieces}")?)
}

/// Migrates a text, and so many `#` after it (`filled`), of at most `most` lines, to a sink that has room for
/// `room` bytes. The source fails at the call `fails`.
pub fn migrate(alloc: Global, case: &Case) -> Result<String, NoMemory> {
    let mut bytes = bytes(alloc, case.text)?;
    for _ in 0..case.size("filled", 0) {
        bytes.push(b'#')?;
    }
    let mut source = source(alloc, case, bytes)?;
    let mut sink = sink(alloc, case.size("room", 1000))?;
    let result = migrate_records(alloc, most_lines(case), &mut source, &mut sink);
    let mut answer = shown(alloc, sink.bytes())?;
    match result {
        Ok(()) => {}
        Err(MigrationStop::WriteFault) => answer.push_str(" write fault")?,
        Err(MigrationStop::Stopped(stop)) => {
            answer.push_str(" ")?;
            answer.push_str(stop_text(alloc, stop)?.as_str())?;
        }
    }
    Ok(answer)
}

fn prefix(alloc: Global, bytes: &[u8], len: usize) -> Result<ByteList, NoMemory> {
    let mut prefix = ByteList::new(alloc);
    for byte in bytes.iter().take(len) {
        prefix.push(*byte)?;
    }
    Ok(prefix)
}

fn folded(alloc: Global, case: &Case, bytes: ByteList) -> Result<String, NoMemory> {
    let mut source = source(alloc, case, bytes)?;
    let at = case.number("at").map(|t| Stamp(t));
    match fold_records(alloc, most_lines(case), at, &mut source) {
        Ok(pieces) => listed(alloc, &pieces, 1000),
        Err(stop) => stop_text(alloc, stop),
    }
}

/// A source that gives eight bytes a call, and fails at the call `fails`.
fn source(alloc: Global, case: &Case, bytes: ByteList) -> Result<MemorySource, NoMemory> {
    let mut failing = CallList::new(alloc);
    if let Some(call) = case.number("fails") {
        failing.push(call)?;
    }
    Ok(MemorySource::new(bytes, 8, failing))
}

fn most_lines(case: &Case) -> u64
    ensures { result ≤ 100000 }
{
    case.number("most").unwrap_or(100).min(100_000)
}

fn fault_text(alloc: Global, fault: FoldFault) -> Result<String, NoMemory> {
    match fault {
        FoldFault::Refused(FoldRefusal::WrongForm) => Ok(String::from_str(alloc, "wrong form, ")?),
        FoldFault::Refused(FoldRefusal::MixedModes) => Ok(String::from_str(
            alloc,
            "mixed modes, ",
        )?),
        FoldFault::Refused(FoldRefusal::OutOfOrder) => {
            Ok(String::from_str(alloc, "out of order, ")?)
        }
        FoldFault::Refused(FoldRefusal::AddsPresent) => {
            Ok(String::from_str(alloc, "adds present, ")?)
        }
        FoldFault::Refused(FoldRefusal::RemovesAbsent) => {
            Ok(String::from_str(alloc, "removes absent, ")?)
        }
        FoldFault::Refused(FoldRefusal::WrongCount { said, held }) => {
            Ok(format!(in alloc; "{said} said and {held} held, ")?)
        }
        FoldFault::NoMemory => Err(NoMemory),
    }
}

fn refusal_text(alloc: Global, line: u64, why: FoldRefusal) -> Result<String, NoMemory> {
    match why {
        FoldRefusal::WrongForm => Ok(format!(in alloc; "line {line} wrong form")?),
        FoldRefusal::MixedModes => Ok(format!(in alloc; "line {line} mixes modes")?),
        FoldRefusal::OutOfOrder => Ok(format!(in alloc; "line {line} out of order")?),
        FoldRefusal::AddsPresent => Ok(format!(in alloc; "line {line} adds present")?),
        FoldRefusal::RemovesAbsent => Ok(format!(in alloc; "line {line} removes absent")?),
        FoldRefusal::WrongCount { said, held } => {
            Ok(format!(in alloc; "line {line} {said} said and {held} held")?)
        }
    }
}

fn stop_text(alloc: Global, stop: FoldStop) -> Result<String, NoMemory> {
    Ok(match stop {
        FoldStop::NoMemory => return Err(NoMemory),
        FoldStop::ReadFault => String::from_str(alloc, "read fault")?,
        FoldStop::BadLine(line) => format!(in alloc; "line {line} in no form")?,
        FoldStop::Refused { line, why } => { refusal_text(alloc, line, why)? }
        FoldStop::NotDone(lines) => format!(in alloc; "not done after {lines} lines")?,
        FoldStop::TooLong(line) => format!(in alloc; "line {line} too long")?,
        FoldStop::TooMany(line) => format!(in alloc; "line {line} too many")?,
    })
}
