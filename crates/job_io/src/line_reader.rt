ghost use Rattle.std.specs.Prelude.{◌≡◌, ◌≢◌, ◌↔◌, Contains, ◌≤◌, ◌<◌, ◌+◌, ◌^◌, ℕ, Bool, true, false, List, [], IsTrue, IfOk, OnErr, OnOk, MatchOption, length, if◌then◌else◌};
ghost use Rattle.std.specs.Bool.{OnTrue};
ghost use Rattle.std.specs.Result.{result_unwrap_or};
ghost use Rattle.job_io.specs.calls.Ends.{HasCause, HasRisen};
ghost use Rattle.job_io.specs.meaning.Lines.{lf, FitsLine, after_line, without_cr as without_cr_of};
ghost use Rattle.job_io.specs.calls.Reading.{MovesBytes, IsShort, IsAhead, ShowsAhead, TellsAny, ReadsNext};

use crate::ends::{Failed, Source};
use crate::line_buffer::LineBuffer;
use crate::lines::without_cr;
use graph_types::NoMemory;
use memchr::memchr;
use std::alloc::Global;
use std::marker::Model;
use thiserror::Error;

// The most bytes that a line may have before its LF.
const MOST_LINE_BYTES: usize = 4096;

/// Why no further line came.
#[derive(Clone, Copy, Debug, PartialEq, Eq, Error)]
pub enum LineFault {
    /// The source failed.
    #[error("the input could not be read")]
    ReadFault,
    /// The line of this number, counted from 1, has more than 4,096 bytes.
    #[error("line {0}: it has more than 4,096 bytes")]
    TooLong(u64),
    /// The source goes on after the last line allowed; the number is that of the next one.
    #[error("line {0}: it is one more than are allowed")]
    TooMany(u64),
}

impl From<Failed> for LineFault {
    ghost use Rattle.std.specs.Prelude.{◌≡◌};
    ghost use Rattle.job_io.specs.declared.line_reader.LineFault.TheVariants.{ReadFault};

    ghost from_gives = { λ _ fault. fault ≡ ReadFault };

    fn from(_failed: Failed) -> LineFault {
        LineFault::ReadFault
    }
}

/// Takes the lines of a source one by one, without their LF. It works in one block of 32 KiB, whatever the
/// lines are: a line is lent from the block and not copied, and the source is asked for 28 KiB or more at a
/// time.
#[derive(Drop)]
pub struct LineReader {
    buffer: LineBuffer,
    whole: bool,
    number: u64,
    most: u64,
    live: bool,
}

impl Model for LineReader {
    ghost use Rattle.std.specs.Prelude.{◌≤◌, ◌^◌};
    ghost use Rattle.job_io.specs.meaning.Lines.{Reading};

    ghost Value = { Reading };

    ghost view = { λ r. record {
      line = record { bytes = r.buffer.line; whole = r.whole };
      number = r.number;
      most = r.most;
      live = r.live;
      held = r.buffer.held;
    } };

    ghost invariant = { λ r. (r.number ≤ r.most) × (r.most ≤ 10 ^ 19) };
}

impl LineReader {
    /// A reader that stands before the first line, and takes at most `max_lines` lines.
    pub fn new(alloc: Global, max_lines: u64) -> Result<LineReader, NoMemory>
        requires { max_lines ≤ 10 ^ 19 }
        ensures line { IfOk result (λ r. r.line ≡ record { bytes = []; whole = true }) }
        ensures number { IfOk result (λ r. r.number ≡ 0) }
        ensures most { IfOk result (λ r. r.most ≡ max_lines) }
        ensures live { IfOk result (λ r. r.live ≡ true) }
        ensures held { IfOk result (λ r. r.held ≡ []) }
    {
        Ok(LineReader {
            buffer: LineBuffer::new(alloc)?,
            whole: true,
            number: 0,
            most: max_lines,
            live: true,
        })
    }

    /// Moves to the next line: `true` where there is one, `false` at the end of the text. A reader that
    /// gave no line may not be asked again. After a last line without LF the end is known, and the source
    /// is not asked.
    ///
    /// After the last line allowed, any further byte is `TooMany`, however the text goes on.
    pub fn next<S: Source>(&mut self, src: &mut S) -> Result<bool, LineFault>
        requires { IsTrue self.old.live }
        ensures bytes { ReadsNext self.old self.new (S.left src.old) (S.left src.new) result }
        ensures line { IfOk result (λ given. OnTrue given (FitsLine self.new.line)) }

        ensures number { self.new.number
            ≡ (if result_unwrap_or result false then self.old.number + 1 else self.old.number) }
        ensures live { self.new.live ≡ result_unwrap_or result false }
        ensures most { self.new.most ≡ self.old.most }
        ensures bound { self.new.number ≤ self.new.most }

        // A line that is held to its LF is given without asking the source.
        ensures unasked { Contains self.old.held lf → src.new ≡ src.old }
        ensures kept { S.faults src.old ≤ S.faults src.new }
        ensures cause { result ≡ Err LineFault.ReadFault → HasRisen (S.faults src.old) (S.faults src.new) }
    {
        self.live = false;
        if !self.whole {
            return Ok(false);
        }
        if self.number == self.most {
            if any_ahead(&mut self.buffer, src)? {
                return Err(LineFault::TooMany(self.most + 1));
            }
            return Ok(false);
        }
        match look_ahead(&mut self.buffer, src)? {
            Ahead::Whole(count) => self.give(count, true),
            Ahead::Last(count) => self.give(count, false),
            Ahead::End => return Ok(false),
            Ahead::TooLong => return Err(LineFault::TooLong(self.number + 1)),
        }
        Ok(true)
    }

    /// The bytes of the line that was given last, without its LF and the one CR that may stand before it. The
    /// limit of 4,096 bytes counts that CR.
    pub fn bytes(&self) -> &[u8]
        ensures { result.now ≡ without_cr_of self.now.line.bytes }
    {
        without_cr(self.buffer.line())
    }

    /// The number of that line, counted from 1; 0 before the first one.
    pub fn number(&self) -> u64
        ensures { result ≡ self.now.number }
    {
        self.number
    }

    /// Whether an LF ended that line. Only the last line of a text may lack one.
    pub fn whole(&self) -> bool
        ensures { result ≡ self.now.line.whole }
    {
        self.whole
    }

    /// Whether the next line is held to its LF, so that `next` will not ask the source.
    pub fn ready(&self) -> bool
        ensures { IsTrue result ↔ Contains self.now.held lf }
    {
        memchr(b'\n', self.buffer.held()).is_some()
    }

    /// Whether the reader may be asked for a further line.
    pub fn live(&self) -> bool
        ensures { result ≡ self.now.live }
    {
        self.live
    }

    // Gives the first `count` bytes held as the next line, with an LF after them where it is whole.
    fn give(&mut self, count: usize, whole: bool)
        requires held { count + (if whole then 1 else 0) ≤ length self.old.held }
        requires more { self.old.number < self.old.most }
        ensures { self.new ≡ after_line self.old count whole }
    {
        self.buffer.give(count, usize::from(whole));
        self.whole = whole;
        self.number += 1;
        self.live = true;
    }
}

// What stands before the reader.
enum Ahead {
    // A line of so many bytes, and its LF.
    Whole(usize),
    // A last line of so many bytes, without LF.
    Last(usize),
    // Nothing.
    End,
    // More bytes without LF than a line may have.
    TooLong,
}

// Takes from the source until it is known what stands ahead.
fn look_ahead<S: Source>(buffer: &mut LineBuffer, src: &mut S) -> Result<Ahead, Failed>
    ensures taken { MovesBytes buffer.old.held buffer.new.held (S.left src.old) (S.left src.new) }
    ensures ok { IfOk result (IsAhead buffer.new.held (S.left src.new)) }
    ensures err { OnErr result (IsShort buffer.new.held) }
    ensures unasked { Contains buffer.old.held lf → src.new ≡ src.old }
    ensures cause { HasCause (S.faults src.old) (S.faults src.new) result }
{
    loop {
        if let Some(ahead) = first_line(buffer.held()) {
            return Ok(ahead);
        }
        if buffer.refill(src)? == 0 {
            let count = buffer.held().len();
            return Ok(if count == 0 {
                Ahead::End
            } else {
                Ahead::Last(count)
            });
        }
    }
}

// What stands ahead, where the bytes held show it whatever is to come.
fn first_line(held: &[u8]) -> Option<Ahead>
    ensures { MatchOption result (IsShort held.now) (ShowsAhead held.now) }
{
    match memchr(b'\n', held) {
        Some(count) if count <= MOST_LINE_BYTES => Some(Ahead::Whole(count)),
        Some(_) => Some(Ahead::TooLong),
        None if held.len() > MOST_LINE_BYTES => Some(Ahead::TooLong),
        None => None,
    }
}

// Whether any byte is left. The source is asked only where none is held.
fn any_ahead<S: Source>(buffer: &mut LineBuffer, src: &mut S) -> Result<bool, Failed>
    ensures taken { MovesBytes buffer.old.held buffer.new.held (S.left src.old) (S.left src.new) }
    ensures ok { IfOk result (TellsAny buffer.new.held (S.left src.new)) }
    ensures err { OnErr result (buffer.new.held ≡ []) }
    ensures unasked { buffer.old.held ≢ [] → src.new ≡ src.old }
    ensures cause { HasCause (S.faults src.old) (S.faults src.new) result }
{
    if !buffer.held().is_empty() {
        return Ok(true);
    }
    let count = buffer.refill(src)?;
    Ok(count > 0)
}
