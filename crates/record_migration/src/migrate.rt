ghost use Rattle.std.specs.Prelude.{◌≡◌, ◌+◌, ◌≤◌, ◌^◌, ◌&&◌, ℕ, [], List, Ok, Err, MatchOption, Option, Some, IsTrue, IfOk, OnErr};
ghost use Rattle.job_io.specs.calls.Ends.{Gathers, HasCause, HasRisen};
ghost use Rattle.record_text.specs.meaning.Grammar.{record_of};
ghost use Rattle.record_migration.specs.calls.Migrates.{Migrates, WritesMigrated};
ghost use Rattle.record_migration.specs.calls.Turns.{IsMigrating, MigratesLines, TakesSaid, Turns, closing_text, line_adds};
ghost use Rattle.record_migration.specs.meaning.Migrated.{block_text};

use graph_types::Stamp;
use job_io::{LineReader, Page, Sink, Source, WriteFault};
use record_text::{RecordLine, read_record, write_delta, write_done, write_head};
use snapshot_fold::{Fold, FoldFault, FoldStop};
use std::alloc::Global;
use thiserror::Error;

/// Why a text of records was not migrated to its end.
#[derive(Clone, Copy, Debug, PartialEq, Eq, Error)]
pub enum MigrationStop {
    /// Reading stopped here; it is never `NotDone`.
    #[error("{0}")]
    Stopped(FoldStop),
    /// The sink failed.
    #[error("the records could not be written")]
    WriteFault,
}

/// What a line leads to.
#[derive(Drop)]
pub enum Turn {
    More,
    End(Option<FoldStop>),
}

/// Writes a text of records, in either format and of at most `most_lines` lines, anew in format 2: the line
/// `records 2`, and then for each timestamp that is done its records and the number of pieces there, up to the
/// first line that is refused. Records after the last timestamp that is done are dropped, and so is a last line
/// without LF.
///
/// It holds the pieces that are there and what the open timestamp changed, beside one block of 32 KiB and a page.
/// It takes time linear in the bytes, and for each record logarithmic in the number of pieces held. What is
/// written goes out before the source is asked for more.
pub fn migrate_records<S: Source, O: Sink>(
    alloc: Global,
    most_lines: u64,
    input: &mut S,
    out: &mut O,
) -> Result<(), MigrationStop>
    requires { most_lines ≤ 10 ^ 19 }
    ensures migrates { Migrates most_lines (S.left input.old) (S.left input.new)
        (O.written out.old) (O.written out.new) result }
    ensures writes { WritesMigrated most_lines (S.left input.old) (S.left input.new)
        (O.written out.old) (O.written out.new) }
    ensures reads { S.faults input.old ≤ S.faults input.new }
    ensures read_cause { result ≡ Err (MigrationStop.Stopped FoldStop.ReadFault) →
        HasRisen (S.faults input.old) (S.faults input.new) }
    ensures write_cause { result ≡ Err MigrationStop.WriteFault →
        HasRisen (O.faults out.old) (O.faults out.new) }
{
    let mut page = Page::new();
    match migrate_lines(alloc, most_lines, &mut page, input, out) {
        Ok(end) => match page.send(out) {
            Ok(()) => ended(end),
            Err(WriteFault) => Err(MigrationStop::WriteFault),
        },
        Err(WriteFault) => Err(MigrationStop::WriteFault),
    }
}

fn ended(end: Option<FoldStop>) -> Result<(), MigrationStop>
    ensures { MatchOption end (result ≡ Ok tt) (λ why. result ≡ Err (MigrationStop.Stopped why)) }
{
    match end {
        None => Ok(()),
        Some(why) => Err(MigrationStop::Stopped(why)),
    }
}

/// Takes all lines. What the page holds at the end is still to be sent.
fn migrate_lines<S: Source, O: Sink>(
    alloc: Global,
    most_lines: u64,
    page: &mut Page,
    input: &mut S,
    out: &mut O,
) -> Result<Option<FoldStop>, WriteFault>
    requires few { most_lines ≤ 10 ^ 19 }
    requires fresh { page.old ≡ [] }
    ensures migrates { MigratesLines most_lines (S.left input.old) (S.left input.new)
        (O.written out.old) (O.written out.new) page.new result }
    ensures reads { S.faults input.old ≤ S.faults input.new }
    ensures writes { O.faults out.old ≤ O.faults out.new }
    ensures read_cause { result ≡ Ok (Some FoldStop.ReadFault) →
        HasRisen (S.faults input.old) (S.faults input.new) }
    ensures write_cause { OnErr result (HasRisen (O.faults out.old) (O.faults out.new)) }
{
    write_head(out, page)?;
    let Ok(mut reader) = LineReader::new(alloc, most_lines) else {
        return Ok(Some(FoldStop::NoMemory));
    };
    let mut fold = Fold::new(alloc);
    'lines: loop {
        match migrate_line(&mut reader, &mut fold, page, input, out)? {
            Turn::More => {}
            Turn::End(end) => return Ok(end),
        }
    }
}

/// Takes the next line, if a whole one follows.
fn migrate_line<S: Source, O: Sink>(
    reader: &mut LineReader,
    fold: &mut Fold,
    page: &mut Page,
    input: &mut S,
    out: &mut O,
) -> Result<Turn, WriteFault>
    requires live { IsTrue reader.old.live }
    requires whole { IsTrue reader.old.line.whole }
    ensures turns { (left0 written0 : Option (List ℕ)) →
        IsMigrating reader.old.most left0 (S.left input.old) written0 (O.written out.old) page.old reader.old fold.old →
        Turns reader.old.most left0 (S.left input.new) written0 (O.written out.new) page.new reader.new fold.new result }
    ensures counts { result ≡ Ok Turn.More → reader.new.number ≡ reader.old.number + 1 }
    ensures reads { S.faults input.old ≤ S.faults input.new }
    ensures writes { O.faults out.old ≤ O.faults out.new }
    ensures read_cause { result ≡ Ok (Turn.End (Some FoldStop.ReadFault)) →
        HasRisen (S.faults input.old) (S.faults input.new) }
    ensures write_cause { OnErr result (HasRisen (O.faults out.old) (O.faults out.new)) }
{
    send_before_wait(reader, page, out)?;
    let given = match reader.next(input) {
        Ok(given) => given,
        Err(fault) => return Ok(Turn::End(Some(FoldStop::from(fault)))),
    };
    if !is_whole(reader, given) {
        return Ok(Turn::End(None));
    }
    take_said(fold, reader.number(), reader.bytes(), page, out)
}

/// Whether a line was given, and an LF ended it.
fn is_whole(reader: &LineReader, given: bool) -> bool
    ensures { result ≡ (given && reader.now.line.whole) }
{
    given && reader.whole()
}

/// Sends what the page holds, unless the next line is there already.
fn send_before_wait<O: Sink>(
    reader: &LineReader,
    page: &mut Page,
    out: &mut O,
) -> Result<(), WriteFault>
    ensures sent { Gathers (O.written out.old) page.old (O.written out.new) page.new [] result }
    ensures cause { HasCause (O.faults out.old) (O.faults out.new) result }
{
    if reader.ready() {
        return Ok(());
    }
    page.send(out)
}

/// Takes a whole line, whose CR was dropped.
fn take_said<O: Sink>(
    fold: &mut Fold,
    number: u64,
    line: &[u8],
    page: &mut Page,
    out: &mut O,
) -> Result<Turn, WriteFault>
    ensures adds { Gathers (O.written out.old) page.old (O.written out.new) page.new
        (line_adds number fold.old (record_of line.now)) result }
    ensures leads { IfOk result (TakesSaid number fold.old fold.new (record_of line.now)) }
    ensures cause { HasCause (O.faults out.old) (O.faults out.new) result }
{
    let Ok(said) = read_record(line) else {
        return Ok(Turn::End(Some(FoldStop::BadLine(number))));
    };
    write_closed(out, page, fold, &said)?;
    match fold.take(&said) {
        Ok(()) => Ok(Turn::More),
        Err(FoldFault::Refused(why)) => Ok(Turn::End(Some(FoldStop::Refused {
            line: number,
            why,
        }))),
        Err(FoldFault::NoMemory) => Ok(Turn::End(Some(FoldStop::NoMemory))),
    }
}

/// Writes the block of the timestamp that a line closes, if it closes one and is not refused.
fn write_closed<O: Sink>(
    out: &mut O,
    page: &mut Page,
    fold: &Fold,
    said: &RecordLine,
) -> Result<(), WriteFault>
    ensures text { Gathers (O.written out.old) page.old (O.written out.new) page.new
        (closing_text fold.now said.now) result }
    ensures cause { HasCause (O.faults out.old) (O.faults out.new) result }
{
    let RecordLine::Done { stamp, count } = said else {
        return Ok(());
    };
    match fold.done_refusal(*stamp, *count) {
        None => write_block(out, page, fold, *stamp),
        Some(_) => Ok(()),
    }
}

/// Writes what went and what came at the open timestamp, and how many pieces there are.
fn write_block<O: Sink>(
    out: &mut O,
    page: &mut Page,
    fold: &Fold,
    t: Stamp,
) -> Result<(), WriteFault>
    ensures text { Gathers (O.written out.old) page.old (O.written out.new) page.new
        (block_text fold.now t) result }
    ensures cause { HasCause (O.faults out.old) (O.faults out.new) result }
{
    write_delta(out, page, t, fold.went(), fold.came())?;
    write_done(out, page, t, Some(fold.held()))
}
