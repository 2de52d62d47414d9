ghost use Rattle.std.specs.Prelude.{◌≡◌, IsTrue, Some, map, string_bytes};
ghost use Rattle.command_words.specs.declared.command.Options.{Options};
ghost use Rattle.command_words.specs.meaning.Ranges.{AreWithin};
ghost use Rattle.command_words.specs.meaning.Words.{command_of};
ghost use Rattle.tesseract.specs.meaning.Commands.{fold_command, format_of, is_still, mine_command, terms_of as job_terms, trial_bytes, trial_command, trial_terms as counting_terms};
ghost use Rattle.tesseract.specs.calls.Fold.{FoldsNothing};
ghost use Rattle.tesseract.specs.calls.Run.{AnswersWords, Mines, Tells, WritesTold};
ghost use Rattle.tesseract.specs.calls.Trial.{Tries};
ghost use Rattle.tesseract.specs.calls.Turning.{IsPlan};
ghost use Rattle.tesseract.specs.meaning.Status.{status_line};

use crate::fold::fold;
use crate::migrate::migrate;
use crate::mine::mine;
use crate::miner::{OneThread, Rehearsal};
use crate::status::Status;
use crate::terms::{Plan, Terms};
use crate::trial::trial;
use command_words::{Command, Options, Verb, read_words};
use graph_types::Gate;
use job_io::{Sink, Source, put_all};
use record_text::RecordFormat;
use std::alloc::Global;
use std::sync::Wait;
use std::thread::Threads;
use window_miner::AtGate;

/// How many lines a text of records may have.
const MOST_RECORD_LINES: u64 = 4_000_000_000_000;

/// Does what the words of the command line say, with these ends, and tells on `err` how it ended if
/// it didn't end well. The gate is passed at each timestamp that is mined.
pub fn run<R: Wait + Threads, S: Source, O: Sink, E: Sink, G: Gate>(
    rt: &R,
    alloc: Global,
    words: &[String],
    input: &mut S,
    out: &mut O,
    err: &mut E,
    gate: &G,
) -> Status
    ensures answers { AnswersWords (map string_bytes words.now)
        (record { bytes = S.left input.old; faults = S.faults input.old })
        (record { bytes = S.left input.new; faults = S.faults input.new })
        (record { bytes = O.written out.old; faults = O.faults out.old })
        (record { bytes = O.written out.new; faults = O.faults out.new })
        (record { bytes = E.written err.old; faults = E.faults err.old })
        (record { bytes = E.written err.new; faults = E.faults err.new }) result }

    // Words that give no command do nothing, a fold up to timestamp 0 reads nothing.
    ensures usage_does_nothing { result ≡ Status.Usage →
        (input.new ≡ input.old) × (out.new ≡ out.old) }
    ensures unread { (options : Options) → options.at ≡ Some 0 →
        command_of (map string_bytes words.now) ≡ Some (fold_command options) →
        (input.new ≡ input.old) × FoldsNothing result }

    // `mine` writes the text of the job, and its status is how the job ends.
    ensures mined { (options : Options) → command_of (map string_bytes words.now) ≡ Some (mine_command options) →
        Mines (job_terms options) (S.left input.old) (S.left input.new)
        (O.written out.old) (O.written out.new) result }

    // Whatever the status, folding what `mine` wrote gives the embeddings of the job's snapshots alone, and
    // those of each timestamp whose line it wrote.
    ensures tells { (options : Options) → command_of (map string_bytes words.now) ≡ Some (mine_command options) →
        WritesTold (job_terms options) (S.left input.old) (S.left input.new)
        (O.written out.old) (O.written out.new) }

    // `trial` writes a summary of the job that it makes, and reads nothing.
    ensures trialed { (options : Options) → command_of (map string_bytes words.now) ≡ Some (trial_command options) →
        Tries (counting_terms options) (trial_bytes options) (O.written out.old) (O.written out.new) result
        × (input.new ≡ input.old) }
{
    match read_words(alloc, words) {
        Ok(Command { verb, options }) => match verb {
            Verb::Mine => tell(
                err,
                mine(
                    &OneThread {
                        pass: AtGate { rt, gate },
                    },
                    alloc,
                    terms_of(&options),
                    plan_of(&options),
                    input,
                    out,
                ),
            ),
            Verb::Fold | Verb::Migrate | Verb::Rehearse => run_still(alloc, words, input, out, err),
            Verb::Trial => tell(
                err,
                trial(
                    &OneThread {
                        pass: AtGate { rt, gate },
                    },
                    alloc,
                    &options,
                    trial_terms(&options),
                    plan_of(&options),
                    out,
                ),
            ),
        },
        Err(fault) => tell(err, Status::from(fault)),
    }
}

/// On which terms a job is mined.
fn terms_of(options: &Options) -> Terms
    ensures { result ≡ job_terms options.now }
{
    Terms {
        lines: u64::from(options.max_lines),
        records: options.max_records,
        format: format(options.records),
    }
}

/// On which terms the job of a trial is mined.
fn trial_terms(options: &Options) -> Terms
    ensures { result ≡ counting_terms options.now }
{
    Terms {
        format: RecordFormat::One,
        ..terms_of(options)
    }
}

/// The format of this number.
fn format(number: u32) -> RecordFormat
    ensures { result ≡ format_of number }
{
    if number == 1 {
        RecordFormat::One
    } else {
        RecordFormat::Two
    }
}

/// How a job is mined.
fn plan_of(options: &Options) -> Plan
    requires { AreWithin options.now }
    ensures { IsPlan result }
{
    Plan {
        window: options.window,
        shards: options.shards,
    }
}

/// Does what the words of a command say that works on one thread: `fold`, `migrate` or `rehearse`. It waits for nobody,
/// and always returns.
pub fn run_still<S: Source, O: Sink, E: Sink>(
    alloc: Global,
    words: &[String],
    input: &mut S,
    out: &mut O,
    err: &mut E,
) -> Status
    requires { IsTrue (is_still (map string_bytes words.now)) }
    ensures answers { AnswersWords (map string_bytes words.now)
        (record { bytes = S.left input.old; faults = S.faults input.old })
        (record { bytes = S.left input.new; faults = S.faults input.new })
        (record { bytes = O.written out.old; faults = O.faults out.old })
        (record { bytes = O.written out.new; faults = O.faults out.new })
        (record { bytes = E.written err.old; faults = E.faults err.old })
        (record { bytes = E.written err.new; faults = E.faults err.new }) result }

    // Words that give no command do nothing, and a fold up to timestamp 0 reads nothing.
    ensures usage_does_nothing { result ≡ Status.Usage →
        (input.new ≡ input.old) × (out.new ≡ out.old) }
    ensures unread { (options : Options) → options.at ≡ Some 0 →
        command_of (map string_bytes words.now) ≡ Some (fold_command options) →
        (input.new ≡ input.old) × FoldsNothing result }
{
    match read_words(alloc, words) {
        Ok(Command { verb, options }) => {
            let status = match verb {
                Verb::Migrate => migrate(alloc, MOST_RECORD_LINES, input, out),
                Verb::Rehearse => mine(
                    &Rehearsal::of(&options.schedule),
                    alloc,
                    terms_of(&options),
                    plan_of(&options),
                    input,
                    out,
                ),
                _ => fold(alloc, MOST_RECORD_LINES, options.at, input, out),
            };
            tell(err, status)
        }
        Err(fault) => tell(err, Status::from(fault)),
    }
}

/// Tells a status, and gives it back. Where this fails too, there is nobody left to tell.
fn tell<E: Sink>(err: &mut E, status: Status) -> Status
    ensures same { result ≡ status }
    ensures told { Tells (E.written err.old) (E.written err.new)
        (E.faults err.old) (E.faults err.new) (status_line status) }
{
    let _ = put_all(err, &status.line());
    status
}
