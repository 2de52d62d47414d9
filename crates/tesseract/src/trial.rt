ghost use Rattle.std.specs.Prelude.{◌≡◌, ◌≢◌, ◌<◌, ◌≤◌};
ghost use Rattle.job_io.specs.calls.Ends.{HasRisen};
ghost use Rattle.record_tally.specs.meaning.Lines.{lines_beginning};
ghost use Rattle.record_text.specs.declared.record_format.RecordFormat.TheVariants.{One};
ghost use Rattle.tesseract.specs.calls.Trial.{IsSummaryWritten, Tries};
ghost use Rattle.tesseract.specs.calls.Turning.{IsPlan};
ghost use Rattle.tesseract.specs.meaning.Output.{IsCountable};
ghost use Rattle.tesseract.specs.meaning.Summary.{summary_line as line_of_summary};
ghost use Rattle.trial_job.specs.meaning.TrialJob.{states_end, trial_text};

use crate::mine::mine;
use crate::miner::Miner;
use crate::status::Status;
use crate::terms::{Plan, Terms};
use command_words::Options;
use job_io::{ShortLine, Sink, WriteFault, put_all};
use record_tally::Tally;
use std::alloc::Global;
use trial_job::{JobSource, trial_job};

/// Makes the job of a trial, mines it, and writes how many updates it has, how many pieces come and go, and how many of
/// them are left. No record is written, and nothing is written where the job ends early.
pub fn trial<M: Miner, O: Sink>(
    miner: &M,
    alloc: Global,
    options: &Options,
    terms: Terms,
    plan: Plan,
    out: &mut O,
) -> Status
    requires countable { IsCountable terms }
    requires counted { terms.format ≡ One }
    requires planned { IsPlan plan }
    requires seeded { options.now.seed < states_end }
    requires paired { 2 ≤ options.now.vertices }
    ensures tried { Tries terms (trial_text options.now.seed options.now.vertices options.now.updates)
        (O.written out.old) (O.written out.new) result }
    ensures not_usage { result ≢ Status.Usage }
    ensures unread { result ≢ Status.ReadFault }
    ensures write_cause { result ≡ Status.WriteFault → HasRisen (O.faults out.old) (O.faults out.new) }
{
    let Ok(job) = trial_job(alloc, options.seed, options.vertices, options.updates) else {
        return Status::NoMemory;
    };
    let mut source = JobSource::new(job);
    let mut tally = Tally::new(alloc);
    match mine(miner, alloc, terms, plan, &mut source, &mut tally) {
        Status::Ok => write_summary(&tally, out),
        // A tally fails only where memory is refused.
        Status::WriteFault => Status::NoMemory,
        status => status,
    }
}

/// Writes the summary of the records that were counted.
fn write_summary<O: Sink>(tally: &Tally, out: &mut O) -> Status
    ensures line { IsSummaryWritten
        (line_of_summary (lines_beginning 68 tally.now.written) (lines_beginning 78 tally.now.written)
        (lines_beginning 82 tally.now.written)) (O.written out.old) (O.written out.new) result }
    ensures write_cause { result ≡ Status.WriteFault → HasRisen (O.faults out.old) (O.faults out.new) }
{
    match put_all(
        out,
        &summary_line(tally.done(), tally.added(), tally.removed()),
    ) {
        Ok(()) => Status::Ok,
        Err(WriteFault) => Status::WriteFault,
    }
}

fn summary_line(updates: u64, added: u64, removed: u64) -> ShortLine
    ensures { result ≡ line_of_summary updates added removed }
{
    let mut line = ShortLine::new();
    line.push(b"updates ");
    line.push_number(updates);
    line.push(b" new ");
    line.push_number(added);
    line.push(b" rem ");
    line.push_number(removed);
    line.push(b" left ");
    line.push_number(added.saturating_sub(removed));
    line.push(b"\n");
    line
}
