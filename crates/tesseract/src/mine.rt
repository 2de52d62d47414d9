ghost use Rattle.std.specs.Prelude.{◌≡◌, ◌≢◌, Contains, ◌+◌, ◌*◌, ◌<◌, ◌≤◌, ◌^◌, ◌⊎◌, ℕ, [], List, Option, Some, IsTrue, IfOk, Ok, OnErr, OnOk};
ghost use Rattle.cond_eval.specs.meaning.Patterns.{pattern_of};
ghost use Rattle.job.specs.calls.Standing.{IsStageOf};
ghost use Rattle.job.specs.meaning.Judging.{Stage, close_at};
ghost use Rattle.job_io.specs.meaning.Lines.{Reading, lf};
ghost use Rattle.job_io.specs.calls.Ends.{BothKnown, Gathers, HasCause, HasRisen};
ghost use Rattle.tesseract.specs.calls.Progress.{Progress, first_progress};
ghost use Rattle.tesseract.specs.calls.Run.{Mines, WritesTold};
ghost use Rattle.tesseract.specs.calls.Running.{EndsJob, IsEnd, IsRunning};
ghost use Rattle.tesseract.specs.calls.Turning.{Advances, GoesToNext, IsAtEnd, IsGiven, IsPlan, MinesLines, Stands, StandsBefore, StandsSomewhere, TakesHeading, Turns, WaitsUnder, opening_for};
ghost use Rattle.tesseract.specs.meaning.Output.{IsCountable};
ghost use Rattle.tesseract.specs.meaning.Status.{status_of_end};

use crate::miner::Miner;
use crate::mining::{Emptied, mine_waiting};
use crate::status::{LimitKind, Status};
use crate::terms::{Plan, Terms};
use crate::waiting::{Kept, Waiting};
use filter_polarity::Program;
use graph_types::{NoMemory, Stamp};
use group_window::Window;
use job::{Header, Job, Stream};
use job_io::{LineFault, LineReader, Page, Sink, Source, WriteFault};
use record_text::{RecordFormat, write_head};
use shard_state::sharing::make_shards;
use std::alloc::Global;

/// A run between two lines.
#[derive(Drop)]
pub struct Run {
    pub job: Job,
    pub waiting: Waiting,
}

/// What a line leads to.
#[derive(Drop)]
pub enum Turn {
    More(Run),
    End(Status),
}

impl Run {
    /// A run before the first line.
    fn new(alloc: Global, plan: Plan) -> Result<Run, NoMemory>
        requires { IsPlan plan }
        ensures { (terms : Terms) → IfOk result (Stands terms plan (first_progress terms)) }
    {
        Ok(Run {
            job: Job::new(alloc)?,
            waiting: Waiting {
                window: Window::new(alloc, Stamp(0), plan.shards),
                shards: make_shards(alloc, plan.shards)?,
                standing: 0,
            },
        })
    }
}

/// Mines a job on these terms: reads it line by line, gathers what is accepted in windows, and writes what each
/// timestamp takes away and brings once its window ends. Output is held back in a page, and sent before the source is
/// asked for more.
pub fn mine<M: Miner, S: Source, O: Sink>(
    miner: &M,
    alloc: Global,
    terms: Terms,
    plan: Plan,
    input: &mut S,
    out: &mut O,
) -> Status
    requires countable { IsCountable terms }
    requires planned { IsPlan plan }
    ensures mined { Mines terms (S.left input.old) (S.left input.new)
        (O.written out.old) (O.written out.new) result }
    ensures tells { WritesTold terms (S.left input.old) (S.left input.new)
        (O.written out.old) (O.written out.new) }
    ensures not_usage { result ≢ Status.Usage }
    ensures read_cause { result ≡ Status.ReadFault →
        HasRisen (S.faults input.old) (S.faults input.new) }
    ensures write_cause { result ≡ Status.WriteFault → HasRisen (O.faults out.old) (O.faults out.new) }
{
    let mut page = Page::new();
    match mine_lines(miner, alloc, terms, plan, &mut page, input, out) {
        Ok(status) => match page.send(out) {
            Ok(()) => status,
            Err(WriteFault) => Status::WriteFault,
        },
        Err(WriteFault) => Status::WriteFault,
    }
}

/// Takes all lines. What the page holds at the end is still to be sent.
fn mine_lines<M: Miner, S: Source, O: Sink>(
    miner: &M,
    alloc: Global,
    terms: Terms,
    plan: Plan,
    page: &mut Page,
    input: &mut S,
    out: &mut O,
) -> Result<Status, WriteFault>
    requires countable { IsCountable terms }
    requires planned { IsPlan plan }
    requires fresh { page.old ≡ [] }
    ensures mined { MinesLines terms (S.left input.old) (S.left input.new)
        (O.written out.old) (O.written out.new) page.new result }
    ensures reads { S.faults input.old ≤ S.faults input.new }
    ensures writes { O.faults out.old ≤ O.faults out.new }
    ensures read_cause { result ≡ Ok Status.ReadFault →
        HasRisen (S.faults input.old) (S.faults input.new) }
    ensures write_cause { OnErr result (HasRisen (O.faults out.old) (O.faults out.new)) }
{
    let Ok(mut reader) = LineReader::new(alloc, terms.lines) else {
        return Ok(Status::NoMemory);
    };
    let Ok(mut run) = Run::new(alloc, plan) else {
        return Ok(Status::NoMemory);
    };
    'lines: loop {
        match take_line(
            miner,
            alloc,
            terms,
            plan,
            &mut reader,
            run,
            page,
            input,
            out,
        )? {
            Turn::More(next) => run = next,
            Turn::End(status) => return Ok(status),
        }
    }
}

/// Takes the next line.
fn take_line<M: Miner, S: Source, O: Sink>(
    miner: &M,
    alloc: Global,
    terms: Terms,
    plan: Plan,
    reader: &mut LineReader,
    run: Run,
    page: &mut Page,
    input: &mut S,
    out: &mut O,
) -> Result<Turn, WriteFault>
    requires countable { IsCountable terms }
    requires planned { IsPlan plan }
    requires live { IsTrue reader.old.live }
    requires most { reader.old.most ≡ terms.lines }
    requires stands { StandsBefore terms plan (reader.old.number + 1) run }
    ensures runs { (left0 written0 : Option (List ℕ)) (p : Progress) → Stands terms plan p run →
        IsRunning terms left0 (S.left input.old) written0 (O.written out.old) page.old reader.old p →
        Turns terms plan left0 (S.left input.new) written0 (O.written out.new) page.new reader.new result }
    ensures goes { GoesToNext reader.old reader.new result }
    ensures reads { S.faults input.old ≤ S.faults input.new }
    ensures writes { O.faults out.old ≤ O.faults out.new }
    ensures read_cause { result ≡ Ok (Turn.End Status.ReadFault) →
        HasRisen (S.faults input.old) (S.faults input.new) }
    ensures write_cause { OnErr result (HasRisen (O.faults out.old) (O.faults out.new)) }
{
    send_before_wait(reader, page, out)?;
    if let Some(status) = advance(reader, page, &run.job, input) {
        return close(miner, alloc, terms, plan, run, status, page, out);
    }
    let Run { job, waiting } = run;
    match job {
        Job::Heading(header) => take_header(
            alloc,
            terms,
            header,
            reader.number(),
            reader.bytes(),
            waiting,
            page,
            out,
        ),
        Job::Streaming(stream) => take_update(
            miner,
            alloc,
            terms,
            plan,
            stream,
            reader.number(),
            reader.bytes(),
            waiting,
            page,
            out,
        ),
    }
}

/// Takes a line of the header, which was given last. Once the header is whole, what stands before the first timestamp is
/// written.
fn take_header<O: Sink>(
    alloc: Global,
    terms: Terms,
    header: Header,
    number: u64,
    text: &[u8],
    waiting: Waiting,
    page: &mut Page,
    out: &mut O,
) -> Result<Turn, WriteFault>
    ensures takes { TakesHeading terms number header text.now waiting
        (O.written out.old) page.old (O.written out.new) page.new result }
    ensures unread { result ≢ Ok (Turn.End Status.ReadFault) }
    ensures cause { HasCause (O.faults out.old) (O.faults out.new) result }
{
    match header.take(alloc, number, text) {
        Ok(job) => {
            write_opening(terms.format, &job, page, out)?;
            Ok(Turn::More(Run { job, waiting }))
        }
        Err(fault) => Ok(Turn::End(Status::from(fault))),
    }
}

/// Writes what stands before the first timestamp, where the job is in its stream.
fn write_opening<O: Sink>(
    format: RecordFormat,
    job: &Job,
    page: &mut Page,
    out: &mut O,
) -> Result<(), WriteFault>
    ensures text { Gathers (O.written out.old) page.old (O.written out.new) page.new (opening_for format job.now) result }
    ensures cause { HasCause (O.faults out.old) (O.faults out.new) result }
{
    match (format, job) {
        (RecordFormat::Two, Job::Streaming(_)) => write_head(out, page),
        _ => Ok(()),
    }
}

/// Takes a line of the stream, which was given last: makes the update that is accepted, or opens or ends a batch, and
/// mines what waits where its window ends.
fn take_update<M: Miner, O: Sink>(
    miner: &M,
    alloc: Global,
    terms: Terms,
    plan: Plan,
    stream: Stream,
    number: u64,
    text: &[u8],
    waiting: Waiting,
    page: &mut Page,
    out: &mut O,
) -> Result<Turn, WriteFault>
    requires countable { IsCountable terms }
    requires planned { IsPlan plan }
    requires counted { number ≤ terms.lines }
    requires stands { StandsBefore terms plan number (record { job = Job.Streaming stream; waiting = waiting }) }
    ensures runs { (left0 was is written0 : Option (List ℕ)) (old new : Reading) (p : Progress) →
        IsGiven old new was is number text.now → old.most ≡ terms.lines →
        Stands terms plan p (record { job = Job.Streaming stream; waiting = waiting }) →
        IsRunning terms left0 was written0 (O.written out.old) page.old old p →
        Turns terms plan left0 is written0 (O.written out.new) page.new new result }
    ensures unread { result ≢ Ok (Turn.End Status.ReadFault) }
    ensures cause { HasCause (O.faults out.old) (O.faults out.new) result }
{
    let mut stream = stream;
    let mut waiting = waiting;
    let item = match stream.take(alloc, number, text) {
        Ok(item) => item,
        Err(fault) => {
            return end(
                miner,
                alloc,
                terms,
                plan,
                &stream.program,
                waiting,
                Status::from(fault),
                page,
                out,
            );
        }
    };
    match waiting.keep(&mut stream.graph, item, plan.window) {
        Err(NoMemory) => Ok(Turn::End(Status::NoMemory)),
        Ok(Kept::More) => Ok(Turn::More(Run {
            job: Job::Streaming(stream),
            waiting,
        })),
        Ok(Kept::Ended) => {
            match mine_waiting(
                miner,
                alloc,
                terms,
                plan,
                &stream.program,
                waiting,
                page,
                out,
            )? {
                Emptied::Nothing(waiting) => Ok(Turn::More(Run {
                    job: Job::Streaming(stream),
                    waiting,
                })),
                Emptied::End(status) => Ok(Turn::End(status)),
            }
        }
    }
}

/// Ends a run where its job ends so. What was accepted before is mined first.
fn close<M: Miner, O: Sink>(
    miner: &M,
    alloc: Global,
    terms: Terms,
    plan: Plan,
    run: Run,
    status: Status,
    page: &mut Page,
    out: &mut O,
) -> Result<Turn, WriteFault>
    requires countable { IsCountable terms }
    requires planned { IsPlan plan }
    requires stands { StandsSomewhere terms plan run }
    ensures runs { (left0 left left' written0 : Option (List ℕ)) (old new : Reading) (p : Progress) →
        IsEnd status → BothKnown left left' (λ was is. EndsJob terms.lines old new was is p.stage status) →
        Stands terms plan p run → IsRunning terms left0 left written0 (O.written out.old) page.old old p →
        Turns terms plan left0 left' written0 (O.written out.new) page.new new result }
    ensures ends { IfOk result IsAtEnd }
    ensures unread { result ≡ Ok (Turn.End Status.ReadFault) → status ≡ Status.ReadFault }
    ensures cause { HasCause (O.faults out.old) (O.faults out.new) result }
{
    let Run { job, waiting } = run;
    match job {
        Job::Heading(_) => Ok(Turn::End(status)),
        Job::Streaming(stream) => end(
            miner,
            alloc,
            terms,
            plan,
            &stream.program,
            waiting,
            status,
            page,
            out,
        ),
    }
}

/// Ends a run whose job ends so in its stream. A batch that is open is left out.
fn end<M: Miner, O: Sink>(
    miner: &M,
    alloc: Global,
    terms: Terms,
    plan: Plan,
    program: &Program,
    waiting: Waiting,
    status: Status,
    page: &mut Page,
    out: &mut O,
) -> Result<Turn, WriteFault>
    requires countable { IsCountable terms }
    requires planned { IsPlan plan }
    requires waits { (p : Progress) × WaitsUnder terms plan (pattern_of program.now) p waiting }
    ensures runs { (left0 left left' written0 : Option (List ℕ)) (old new : Reading) (p : Progress) →
        IsEnd status → BothKnown left left' (λ was is. EndsJob terms.lines old new was is p.stage status) →
        WaitsUnder terms plan (pattern_of program.now) p waiting →
        IsRunning terms left0 left written0 (O.written out.old) page.old old p →
        Turns terms plan left0 left' written0 (O.written out.new) page.new new result }
    ensures ends { IfOk result IsAtEnd }
    ensures unread { result ≡ Ok (Turn.End Status.ReadFault) → status ≡ Status.ReadFault }
    ensures cause { HasCause (O.faults out.old) (O.faults out.new) result }
{
    if status == Status::NoMemory {
        return Ok(Turn::End(status));
    }
    match mine_waiting(miner, alloc, terms, plan, program, waiting, page, out)? {
        Emptied::Nothing(_waiting) => Ok(Turn::End(status)),
        Emptied::End(why) => Ok(Turn::End(why)),
    }
}

/// Sends what the page holds, unless the next line is there already.
fn send_before_wait<O: Sink>(
    reader: &LineReader,
    page: &mut Page,
    out: &mut O,
) -> Result<(), WriteFault>
    ensures sent { Gathers (O.written out.old) page.old (O.written out.new) page.new [] result }
    ensures nothing_waits { OnOk result ((page.new ≡ []) ⊎ Contains reader.now.held lf) }
    ensures cause { HasCause (O.faults out.old) (O.faults out.new) result }
{
    if reader.ready() {
        return Ok(());
    }
    page.send(out)
}

/// Moves to the next line, or tells why the job ends. The source may wait, so no record may be held back
/// unless the next line is there already.
fn advance<S: Source>(
    reader: &mut LineReader,
    page: &Page,
    job: &Job,
    input: &mut S,
) -> Option<Status>
    requires live { IsTrue reader.old.live }
    requires nothing_waits { (page.now ≡ []) ⊎ Contains reader.old.held lf }
    ensures advances { (stage : Stage) → IsStageOf stage job.now → Advances stage reader.old reader.new
        (S.left input.old) (S.left input.new) result }
    ensures reads { S.faults input.old ≤ S.faults input.new }
    ensures read_cause { result ≡ Some Status.ReadFault →
        HasRisen (S.faults input.old) (S.faults input.new) }
{
    match reader.next(input) {
        Ok(true) => None,
        Ok(false) => Some(end_of(job, reader.number())),
        Err(LineFault::ReadFault) => Some(Status::ReadFault),
        Err(LineFault::TooLong(at)) => Some(Status::Limit {
            kind: LimitKind::LineBytes,
            at,
        }),
        Err(LineFault::TooMany(at)) => Some(Status::Limit {
            kind: LimitKind::Lines,
            at,
        }),
    }
}

/// How a job ends of which `number` lines were all.
fn end_of(job: &Job, number: u64) -> Status
    ensures ends { (stage : Stage) → IsStageOf stage job.now → result ≡ status_of_end (close_at number stage) }
    ensures read { result ≢ Status.ReadFault }
{
    match job.close(number) {
        None => Status::Ok,
        Some(why) => Status::from(why),
    }
}
