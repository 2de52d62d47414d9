ghost use Rattle.std.specs.Prelude.{◌≡◌, ◌≢◌, ◌+◌, ◌-◌, ◌*◌, ◌≤◌, ◌^◌, ◌++◌, ℕ, List, Option, Ok, length};
ghost use Rattle.cond_eval.specs.meaning.Patterns.{pattern_of};
ghost use Rattle.delta_task.specs.calls.Deltas.{IsDelta};
ghost use Rattle.graph_types.specs.meaning.Graph.{Graph};
ghost use Rattle.graph_types.specs.meaning.Piece.{members_of_all};
ghost use Rattle.job_io.specs.calls.Ends.{Gathers, HasCause};
ghost use Rattle.job_io.specs.meaning.Lines.{Reading};
ghost use Rattle.mining_model.specs.meaning.Embeddings.{Pattern};
ghost use Rattle.record_text.specs.meaning.Text.{delta_text, done_text};
ghost use Rattle.tesseract.specs.calls.Progress.{Progress};
ghost use Rattle.tesseract.specs.calls.Running.{IsRunning, TellBytes};
ghost use Rattle.tesseract.specs.calls.Turning.{Empties, IsPlan, WaitsUnder};
ghost use Rattle.tesseract.specs.calls.Writing.{AreWaitingDeltas, WritesGroup, WritesWaiting};
ghost use Rattle.tesseract.specs.meaning.Output.{IsCountable};

use crate::miner::Miner;
use crate::status::{LimitKind, Status};
use crate::terms::{Plan, Terms};
use crate::waiting::Waiting;
use delta_task::Delta;
use filter_polarity::Program;
use graph_types::{PieceList, Stamp};
use job_io::{Page, Sink, WriteFault};
use record_text::{write_delta, write_done};
use std::alloc::Global;
use window_miner::Mined;

/// What mining what waits leads to.
#[derive(Drop)]
pub enum Emptied {
    /// Nothing waits any more.
    Nothing(Waiting),
    End(Status),
}

/// How far the groups of a window were written.
#[derive(Clone, Copy)]
pub enum Written {
    /// All were, and so many pieces stand after the last.
    All(u64),
    /// Those before this timestamp, which has too many records.
    Full(Stamp),
}

/// Mines the groups that wait, under this program, and writes their records.
pub fn mine_waiting<M: Miner, O: Sink>(
    miner: &M,
    alloc: Global,
    terms: Terms,
    plan: Plan,
    program: &Program,
    waiting: Waiting,
    page: &mut Page,
    out: &mut O,
) -> Result<Emptied, WriteFault>
    requires countable { IsCountable terms }
    requires planned { IsPlan plan }
    requires waits { (p : Progress) × WaitsUnder terms plan (pattern_of program.now) p waiting }
    ensures empties { (left0 left left' written0 : Option (List ℕ)) (reader : Reading) (p : Progress) →
        WaitsUnder terms plan (pattern_of program.now) p waiting → TellBytes left left' →
        IsRunning terms left0 left written0 (O.written out.old) page.old reader p →
        Empties terms plan (pattern_of program.now) p left0 left left' written0 (O.written out.new) page.new reader result }
    ensures unread { result ≢ Ok (Emptied.End Status.ReadFault) }
    ensures cause { HasCause (O.faults out.old) (O.faults out.new) result }
{
    let Waiting {
        window,
        shards,
        standing,
    } = waiting;
    let first = window.first();
    let Ok(mined) = miner.mine(alloc, shards, &window, program, terms.records) else {
        return Ok(Emptied::End(Status::NoMemory));
    };
    let Mined { shards, deltas } = mined;
    match write_waiting(terms, first, standing, &deltas, page, out)? {
        Written::All(standing) => Ok(Emptied::Nothing(Waiting {
            window: window.into_next(),
            shards,
            standing,
        })),
        Written::Full(t) => Ok(Emptied::End(Status::Limit {
            kind: LimitKind::Records,
            at: t.0,
        })),
    }
}

/// Writes the records of the timestamps after `first`, at which so many pieces stand.
fn write_waiting<O: Sink>(
    terms: Terms,
    first: Stamp,
    standing: u64,
    deltas: &[Delta],
    page: &mut Page,
    out: &mut O,
) -> Result<Written, WriteFault>
    requires few { first + length deltas.now ≤ 4 * 10 ^ 9 }
    ensures writes { (left0 left left' written0 : Option (List ℕ)) (reader : Reading) (p : Progress) (pattern : Pattern) →
        p.stamp ≡ first → AreWaitingDeltas terms pattern p standing deltas.now → TellBytes left left' →
        IsRunning terms left0 left written0 (O.written out.old) page.old reader p →
        WritesWaiting terms pattern p left0 left left' written0 (O.written out.new) page.new reader result }
    ensures cause { HasCause (O.faults out.old) (O.faults out.new) result }
{
    let mut t = first.0;
    let mut standing = standing;
    for delta in deltas {
        t += 1;
        let Some(now) = write_group(terms, Stamp(t), standing, delta, page, out)? else {
            return Ok(Written::Full(Stamp(t)));
        };
        standing = now;
    }
    Ok(Written::All(standing))
}

/// Writes the records of a timestamp before which so many pieces stood, and tells how many do now; `None` where it has too
/// many records. No timestamp has as many as 2 ^ 32, and there are no more than 2 ^ 32, so the number never saturates.
fn write_group<O: Sink>(
    terms: Terms,
    t: Stamp,
    standing: u64,
    delta: &Delta,
    page: &mut Page,
    out: &mut O,
) -> Result<Option<u64>, WriteFault>
    ensures writes { (pattern : Pattern) (before now : Graph) → standing ≤ 2 ^ 64 - 2 ^ 32 →
        IsDelta pattern before now terms.records delta.now →
        WritesGroup terms t pattern before now standing (O.written out.old) page.old (O.written out.new) page.new result }
    ensures cause { HasCause (O.faults out.old) (O.faults out.new) result }
{
    let Delta::Listed { rem, add } = delta else {
        return Ok(None);
    };
    let now = standing
        .saturating_add(add.len() as u64)
        .saturating_sub(rem.len() as u64);
    write_changes(out, page, t, rem, add, terms.format.count(now))?;
    Ok(Some(now))
}

/// Writes the records of a timestamp and the line that closes it.
fn write_changes<O: Sink>(
    out: &mut O,
    page: &mut Page,
    t: Stamp,
    rem: &PieceList,
    add: &PieceList,
    count: Option<u64>,
) -> Result<(), WriteFault>
    ensures text { Gathers (O.written out.old) page.old (O.written out.new) page.new
        (delta_text t (members_of_all rem.now) (members_of_all add.now) ++ done_text t count) result }
    ensures cause { HasCause (O.faults out.old) (O.faults out.new) result }
{
    write_delta(out, page, t, rem, add)?;
    write_done(out, page, t, count)
}
