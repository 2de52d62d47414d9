ghost use Rattle.std.specs.Prelude.{◌≡◌, ◌≢◌, ◌≤◌, ◌^◌, ◌⊎◌, Some};
ghost use Rattle.job_io.specs.calls.Ends.{HasCause, Puts, HasRisen};
ghost use Rattle.tesseract.specs.calls.Fold.{Folds, pieces_text};

use crate::status::Status;
use graph_types::{PieceList, Stamp};
use job_io::{Page, Sink, Source, WriteFault};
use record_text::write_listing;
use snapshot_fold::fold_records;
use std::alloc::Global;

/// Folds a text of records of at most `most` lines, and writes the pieces at timestamp `at`, or else at the
/// last one that is done: each on a line of its own, ascending. Nothing is written before all is read.
pub fn fold<S: Source, O: Sink>(
    alloc: Global,
    most: u64,
    at: Option<u32>,
    input: &mut S,
    out: &mut O,
) -> Status
    requires { most ≤ 10 ^ 19 }
    ensures folded { Folds most at (S.left input.old) (S.left input.new)
        (O.written out.old) (O.written out.new) result }
    ensures not_usage { result ≢ Status.Usage }

    // Before the first timestamp there are no pieces, whatever the text, which stays unread.
    ensures unread { at ≡ Some 0 → input.new ≡ input.old }
    ensures none { at ≡ Some 0 → (result ≡ Status.Ok) ⊎ (result ≡ Status.WriteFault) }
    ensures read_cause { result ≡ Status.ReadFault →
        HasRisen (S.faults input.old) (S.faults input.new) }
    ensures write_cause { result ≡ Status.WriteFault → HasRisen (O.faults out.old) (O.faults out.new) }
{
    match fold_records(alloc, most, stamp(at), input) {
        Ok(pieces) => match write(out, &pieces) {
            Ok(()) => Status::Ok,
            Err(WriteFault) => Status::WriteFault,
        },
        Err(stop) => Status::from(stop),
    }
}

fn stamp(at: Option<u32>) -> Option<Stamp>
    ensures { result ≡ at }
{
    Some(Stamp(u64::from(at?)))
}

fn write<O: Sink>(out: &mut O, pieces: &PieceList) -> Result<(), WriteFault>
    ensures text { Puts (O.written out.old) (O.written out.new) (pieces_text pieces.now) result }
    ensures cause { HasCause (O.faults out.old) (O.faults out.new) result }
{
    let mut page = Page::new();
    write_listing(out, &mut page, pieces)?;
    page.send(out)
}
