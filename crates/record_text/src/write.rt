ghost use Rattle.std.specs.Prelude.{◌≡◌, ◌++◌};
ghost use Rattle.graph_types.specs.meaning.Piece.{members_of_all};
ghost use Rattle.job_io.specs.calls.Ends.{Gathers, HasCause};
ghost use Rattle.record_text.specs.meaning.Text.{delta_text, done_text, head_text, records_text};
ghost use Rattle.record_text.specs.meaning.Listing.{listing_text};

use crate::line::{fill_done, fill_listed, fill_record, fill_start};
use crate::line_end::LineEnd;
use graph_types::{Piece, PieceList, Stamp};
use job_io::{Page, Sink, WriteFault};

/// Writes a REM line for each piece that a timestamp took away and then a NEW line for each that it
/// brought. What the page still holds at the end is not out yet. Takes no memory.
pub fn write_delta<O: Sink>(
    out: &mut O,
    page: &mut Page,
    t: Stamp,
    rem: &PieceList,
    add: &PieceList,
) -> Result<(), WriteFault>
    ensures text { Gathers (O.written out.old) page.old (O.written out.new) page.new
        (delta_text t (members_of_all rem.now) (members_of_all add.now)) result }
    ensures cause { HasCause (O.faults out.old) (O.faults out.new) result }
{
    write_records(out, page, b"REM", t, rem)?;
    write_records(out, page, b"NEW", t, add)
}

/// Writes the line that closes a timestamp, with the number of pieces there in format 2. What the page
/// still holds is not out yet. Takes no memory.
pub fn write_done<O: Sink>(
    out: &mut O,
    page: &mut Page,
    t: Stamp,
    count: Option<u64>,
) -> Result<(), WriteFault>
    ensures text { Gathers (O.written out.old) page.old (O.written out.new) page.new
        (done_text t count) result }
    ensures cause { HasCause (O.faults out.old) (O.faults out.new) result }
{
    let mut line = LineEnd::new();
    fill_done(&mut line, t, count);
    page.put(out, &line)
}

/// Writes the first line of a text in format 2. What the page still holds is not out yet. Takes no
/// memory.
pub fn write_head<O: Sink>(out: &mut O, page: &mut Page) -> Result<(), WriteFault>
    ensures text { Gathers (O.written out.old) page.old (O.written out.new) page.new head_text result }
    ensures cause { HasCause (O.faults out.old) (O.faults out.new) result }
{
    page.put(out, b"records 2\n")
}

/// Writes the pieces, each on a line of its own. What the page still holds is not out yet. Takes no
/// memory.
pub fn write_listing<O: Sink>(
    out: &mut O,
    page: &mut Page,
    pieces: &PieceList,
) -> Result<(), WriteFault>
    ensures text { Gathers (O.written out.old) page.old (O.written out.new) page.new
        (listing_text (members_of_all pieces.now)) result }
    ensures cause { HasCause (O.faults out.old) (O.faults out.new) result }
{
    write_lines(out, page, pieces)
}

fn write_lines<O: Sink>(out: &mut O, page: &mut Page, pieces: &[Piece]) -> Result<(), WriteFault>
    ensures text { Gathers (O.written out.old) page.old (O.written out.new) page.new
        (listing_text (members_of_all pieces.now)) result }
    ensures cause { HasCause (O.faults out.old) (O.faults out.new) result }
{
    let mut line = LineEnd::new();
    for piece in pieces {
        fill_listed(&mut line, piece);
        page.put(out, &line)?;
    }
    Ok(())
}

fn write_records<O: Sink>(
    out: &mut O,
    page: &mut Page,
    word: &[u8; 3],
    t: Stamp,
    pieces: &[Piece],
) -> Result<(), WriteFault>
    ensures text { Gathers (O.written out.old) page.old (O.written out.new) page.new
        (records_text word.now t (members_of_all pieces.now)) result }
    ensures cause { HasCause (O.faults out.old) (O.faults out.new) result }
{
    // Most updates of a stream write no record, and pay for no line.
    if pieces.is_empty() {
        return Ok(());
    }
    let mut start = LineEnd::new();
    fill_start(&mut start, word, t);
    let mut line = LineEnd::new();
    for piece in pieces {
        fill_record(&mut line, &start, piece);
        page.put(out, &line)?;
    }
    Ok(())
}
