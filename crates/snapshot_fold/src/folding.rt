ghost use Rattle.std.specs.Prelude.{◌≡◌, ◌≢◌, ◌≤◌, ◌^◌, ◌&&◌, [], IsTrue, Some, Ok, Err, IfErr, IfOk, OnOk};
ghost use Rattle.std.specs.List.Sorted.{IsStrictlySortedBy};
ghost use Rattle.graph_types.specs.meaning.Piece.{piece_cmp};
ghost use Rattle.job_io.specs.calls.Ends.{HasRisen};
ghost use Rattle.record_text.specs.meaning.Grammar.{record_of};
ghost use Rattle.snapshot_fold.specs.meaning.Folding.{outcome_at_end, is_reached as is_reached_at, state_after_content};
ghost use Rattle.snapshot_fold.specs.calls.Folds.{AreTold, FoldsRecords};
ghost use Rattle.snapshot_fold.specs.calls.Reading.{IsOutcome, IsStopOf, TakesLine};

use crate::fault::{FoldFault, FoldRefusal};
use crate::fold::Fold;
use graph_types::{NoMemory, PieceList, Stamp};
use job_io::{LineFault, LineReader, Source};
use record_text::read_record;
use std::alloc::Global;
use thiserror::Error;

/// Why a source of records gives no pieces. Lines are counted from 1.
#[derive(Clone, Copy, Debug, PartialEq, Eq, Error)]
pub enum FoldStop {
    /// Memory ran out.
    #[error("out of memory")]
    NoMemory,
    /// The source failed.
    #[error("the records could not be read")]
    ReadFault,
    /// The line of this number is in none of the forms of a record.
    #[error("line {0}: it is no record")]
    BadLine(u64),
    /// The record of this line is refused.
    #[error("line {line}: {why}")]
    Refused { line: u64, why: FoldRefusal },
    /// The text ended after so many whole lines, and the timestamp wasn't done.
    #[error("after {0} lines the timestamp isn't done")]
    NotDone(u64),
    /// This line has more than 4,096 bytes.
    #[error("line {0}: it has more than 4,096 bytes")]
    TooLong(u64),
    /// This line is one more than are allowed.
    #[error("line {0}: it is one more than are allowed")]
    TooMany(u64),
}

impl From<NoMemory> for FoldStop {
    ghost use Rattle.std.specs.Prelude.{◌≡◌};
    ghost use Rattle.snapshot_fold.specs.declared.folding.FoldStop.TheVariants.{NoMemory};

    ghost from_gives = { λ _ stop. stop ≡ NoMemory };

    fn from(_: NoMemory) -> FoldStop {
        FoldStop::NoMemory
    }
}

impl From<LineFault> for FoldStop {
    ghost use Rattle.std.specs.Prelude.{◌≡◌};
    ghost use Rattle.snapshot_fold.specs.calls.Reading.{stop_of};

    ghost from_gives = { λ fault stop. stop ≡ stop_of fault };

    fn from(fault: LineFault) -> FoldStop {
        match fault {
            LineFault::ReadFault => FoldStop::ReadFault,
            LineFault::TooLong(line) => FoldStop::TooLong(line),
            LineFault::TooMany(line) => FoldStop::TooMany(line),
        }
    }
}

/// Folds a text of records, of at most `most_lines` lines, and gives the pieces at timestamp `at`, or else
/// at the last one that is done when the text ends; ascending, each once. Records after that one are
/// judged all the same, but nothing is after the line that closes `at`. A last line without LF is dropped.
///
/// It holds the pieces that are there and what the open timestamp changed, beside one block of 32 KiB. It
/// takes time linear in the bytes, and for each record logarithmic in the number of pieces held.
pub fn fold_records<S: Source>(
    alloc: Global,
    most_lines: u64,
    at: Option<Stamp>,
    input: &mut S,
) -> Result<PieceList, FoldStop>
    requires { most_lines ≤ 10 ^ 19 }
    ensures folds { FoldsRecords most_lines at (S.left input.old) (S.left input.new) result }
    ensures told { IfOk result (AreTold at (S.left input.old) (S.left input.new)) }
    ensures ascending { IfOk result (IsStrictlySortedBy piece_cmp) }

    // Before the first timestamp there are no pieces, whatever the text.
    ensures none { at ≡ Some 0 → result ≡ Ok [] }
    ensures unread { at ≡ Some 0 → input.new ≡ input.old }
    ensures kept { S.faults input.old ≤ S.faults input.new }
    ensures cause { result ≡ Err FoldStop.ReadFault → HasRisen (S.faults input.old) (S.faults input.new) }
{
    if is_reached(&at, Stamp(0)) {
        return Ok(PieceList::new(alloc));
    }
    fold_lines(alloc, most_lines, at, input)
}

fn fold_lines<S: Source>(
    alloc: Global,
    most_lines: u64,
    at: Option<Stamp>,
    input: &mut S,
) -> Result<PieceList, FoldStop>
    requires { most_lines ≤ 10 ^ 19 }
    ensures folds { FoldsRecords most_lines at (S.left input.old) (S.left input.new) result }
    ensures ascending { IfOk result (IsStrictlySortedBy piece_cmp) }
    ensures kept { S.faults input.old ≤ S.faults input.new }
    ensures cause { result ≡ Err FoldStop.ReadFault → HasRisen (S.faults input.old) (S.faults input.new) }
{
    let mut reader = LineReader::new(alloc, most_lines)?;
    let mut fold = Fold::new(alloc);
    'lines: loop {
        if is_reached(&at, fold.done()) {
            return list(alloc, &fold);
        }
        let whole_lines = reader.number();
        if !take_line(&mut reader, &mut fold, input)? {
            return end(alloc, &at, whole_lines, &fold);
        }
    }
}

/// Takes the next line, if a whole one follows.
fn take_line<S: Source>(
    reader: &mut LineReader,
    fold: &mut Fold,
    input: &mut S,
) -> Result<bool, FoldStop>
    requires live { IsTrue reader.old.live }
    requires whole { IsTrue reader.old.line.whole }
    ensures takes { TakesLine reader.old reader.new fold.old fold.new
        (S.left input.old) (S.left input.new) result }
    ensures kept { S.faults input.old ≤ S.faults input.new }
    ensures cause { result ≡ Err FoldStop.ReadFault → HasRisen (S.faults input.old) (S.faults input.new) }
{
    let given = reader.next(input)?;
    if !is_whole(reader, given) {
        return Ok(false);
    }
    fold_line(fold, reader.number(), reader.bytes())?;
    Ok(true)
}

/// Whether a line was given, and an LF ended it.
fn is_whole(reader: &LineReader, given: bool) -> bool
    ensures { result ≡ (given && reader.now.line.whole) }
{
    given && reader.whole()
}

/// Folds a whole line, whose CR was dropped.
fn fold_line(fold: &mut Fold, number: u64, line: &[u8]) -> Result<(), FoldStop>
    ensures led { OnOk result
        (state_after_content number fold.old (record_of line.now) ≡ Ok fold.new) }
    ensures stopped { IfErr result
        (IsStopOf (state_after_content number fold.old (record_of line.now))) }
    ensures judged { result ≢ Err FoldStop.ReadFault }
{
    let Ok(said) = read_record(line) else {
        return Err(FoldStop::BadLine(number));
    };
    match fold.take(&said) {
        Ok(()) => Ok(()),
        Err(FoldFault::Refused(why)) => Err(FoldStop::Refused { line: number, why }),
        Err(FoldFault::NoMemory) => Err(FoldStop::NoMemory),
    }
}

/// Whether the timestamp that is named is done.
fn is_reached(at: &Option<Stamp>, done: Stamp) -> bool
    ensures { result ≡ is_reached_at at.now done }
{
    match at {
        None => false,
        Some(t) => done.0 == t.0,
    }
}

/// What a fold comes to at the end of its text.
fn end(
    alloc: Global,
    at: &Option<Stamp>,
    whole_lines: u64,
    fold: &Fold,
) -> Result<PieceList, FoldStop>
    ensures gives { IsOutcome result (outcome_at_end at.now whole_lines fold.now) }
    ensures ascending { IfOk result (IsStrictlySortedBy piece_cmp) }
    ensures judged { result ≢ Err FoldStop.ReadFault }
{
    match at {
        None => list(alloc, fold),
        Some(_) => Err(FoldStop::NotDone(whole_lines)),
    }
}

/// The pieces at the last timestamp that is done.
fn list(alloc: Global, fold: &Fold) -> Result<PieceList, FoldStop>
    ensures gives { IsOutcome result (Ok fold.now.settled) }
    ensures ascending { IfOk result (IsStrictlySortedBy piece_cmp) }
    ensures judged { result ≢ Err FoldStop.ReadFault }
{
    match fold.listing(alloc) {
        Ok(pieces) => Ok(pieces),
        Err(NoMemory) => Err(FoldStop::NoMemory),
    }
}
