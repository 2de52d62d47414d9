ghost use Rattle.std.specs.Prelude.{◌≡◌, ◌≢◌, ◌↔◌, ◌<◌, length, IsNone, Some, Ok, Err, IfOk, IfErr, IsErrAnd, is_err, if◌then◌else◌};
ghost use Rattle.std.specs.IoError.{error_kind};
ghost use Rattle.std.specs.Io.{ReadsAtMost, WritesAtMost};
ghost use Rattle.std.specs.Io.KnownBytes.{Keeps, ReadConsumes, WriteAppends};
ghost use Rattle.job_io.specs.calls.Ends.{HasCause, HasRisen};
ghost use Rattle.job_io.specs.calls.Memory.{next_count};

use crate::{Failed, Sink, Source};
use std::io;
use std::io::{ErrorKind, Read, Write};
use std::marker::Model;

/// How many interrupted calls in a row are one fault.
const INTERRUPTED_CALLS: u32 = 100;

/// A source over a reader. Contracts see the bytes that the reader has left, where it tells them, and how
/// often it has failed.
#[derive(Drop)]
pub struct ReaderSource<R: Read> {
    input: R,
    faults: u64,
}

impl<R: Read> Model for ReaderSource<R> {
    ghost use Rattle.job_io.specs.calls.Streams.{SourceState};

    ghost Value = { SourceState };

    ghost view = { λ s. record { left = R.remaining s.input; faults = s.faults } };
}

impl<R: Read> ReaderSource<R> {
    /// A source that takes its bytes from `input`. Nothing is read ahead.
    pub fn over(input: R) -> ReaderSource<R>
        ensures { result ≡ record { left = R.remaining input; faults = 0 } }
    {
        ReaderSource { input, faults: 0 }
    }
}

impl<R: Read> Source for ReaderSource<R> {
    ghost left = { λ s. s.left };

    ghost faults = { λ s. s.faults };

    /// Asks the reader for as many bytes as `buf` has room for, again where a signal interrupted it.
    fn read(&mut self, buf: &mut [u8]) -> Result<usize, Failed>
        ensures bound { ReadsAtMost result buf.new }
        ensures bytes { ReadConsumes self.old.left self.new.left result buf.new }
        ensures cause { HasCause self.old.faults self.new.faults result }
        ensures counted { self.new.faults ≡ (if is_err result then next_count self.old.faults else self.old.faults) }
    {
        let result = read_uninterrupted(&mut self.input, buf);
        if result.is_err() {
            self.faults = self.faults.saturating_add(1);
        }
        result
    }
}

/// A sink over a writer. Contracts see the bytes that the writer has got, where it tells them, and how
/// often it has failed.
#[derive(Drop)]
pub struct WriterSink<W: Write> {
    output: W,
    flushed: bool,
    faults: u64,
}

impl<W: Write> Model for WriterSink<W> {
    ghost use Rattle.job_io.specs.calls.Streams.{SinkState};

    ghost Value = { SinkState };

    ghost view = { λ s. record { written = W.contents s.output; faults = s.faults } };
}

impl<W: Write> WriterSink<W> {
    /// A sink that hands its bytes to `output`. Nothing is held back.
    pub fn over(output: W) -> WriterSink<W>
        ensures { result ≡ record { written = W.contents output; faults = 0 } }
    {
        WriterSink {
            output,
            flushed: true,
            faults: 0,
        }
    }
}

impl<W: Write> Sink for WriterSink<W> {
    ghost written = { λ s. s.written };

    ghost faults = { λ s. s.faults };

    /// Writes once, and flushes; each again where a signal interrupted it. Where the flush fails the writer
    /// has the bytes all the same: that is a fault, and the next write begins with that flush.
    fn write(&mut self, bytes: &[u8]) -> Result<usize, Failed>
        ensures bound { WritesAtMost result bytes.now }
        ensures bytes { WriteAppends self.old.written self.new.written result bytes.now }
        ensures cause { HasCause self.old.faults self.new.faults result }
        ensures none { result ≡ Ok 0 → 0 < length bytes.now → HasRisen self.old.faults self.new.faults }
        ensures counted { self.new.faults ≢ self.old.faults → self.new.faults ≡ next_count self.old.faults }
    {
        let result = write_through(&mut self.output, &mut self.flushed, bytes);
        let failed = match result {
            Ok(n) => !self.flushed || (n == 0 && !bytes.is_empty()),
            Err(Failed) => true,
        };
        if failed {
            self.faults = self.faults.saturating_add(1);
        }
        result
    }
}

/// The flush that an earlier write still owes, one write, and its flush.
fn write_through<W: Write>(
    output: &mut W,
    flushed: &mut bool,
    bytes: &[u8],
) -> Result<usize, Failed>
    ensures bound { WritesAtMost result bytes.now }
    ensures bytes { WriteAppends (W.contents output.old) (W.contents output.new) result bytes.now }
{
    if !*flushed {
        flush_uninterrupted(output)?;
    }
    let count = write_uninterrupted(output, bytes)?;
    *flushed = flush_uninterrupted(output).is_ok();
    Ok(count)
}

/// One read, made again where a signal interrupted it.
fn read_uninterrupted<R: Read>(input: &mut R, buf: &mut [u8]) -> Result<usize, Failed>
    ensures bound { ReadsAtMost result buf.new }
    ensures bytes { ReadConsumes (R.remaining input.old) (R.remaining input.new) result buf.new }
{
    for _ in 0..INTERRUPTED_CALLS {
        if let Some(result) = answer(input.read(buf)) {
            return result;
        }
    }
    Err(Failed)
}

/// One write, made again where a signal interrupted it.
fn write_uninterrupted<W: Write>(output: &mut W, bytes: &[u8]) -> Result<usize, Failed>
    ensures bound { WritesAtMost result bytes.now }
    ensures bytes { WriteAppends (W.contents output.old) (W.contents output.new) result bytes.now }
{
    for _ in 0..INTERRUPTED_CALLS {
        if let Some(result) = answer(output.write(bytes)) {
            return result;
        }
    }
    Err(Failed)
}

/// One flush, made again where a signal interrupted it.
fn flush_uninterrupted<W: Write>(output: &mut W) -> Result<(), Failed>
    ensures { Keeps (W.contents output.old) (W.contents output.new) }
{
    for _ in 0..INTERRUPTED_CALLS {
        if let Some(result) = answer(output.flush()) {
            return result;
        }
    }
    Err(Failed)
}

/// What a call answers; nothing where a signal interrupted it, and it is to be made again.
fn answer<T: Drop>(call: io::Result<T>) -> Option<Result<T, Failed>>
    ensures again { IsNone result ↔ IsErrAnd call (λ e. error_kind e ≡ ErrorKind.Interrupted) }
    ensures value { IfOk call (λ v. result ≡ Some (Ok v)) }
    ensures failed { IfErr call (λ e. error_kind e ≢ ErrorKind.Interrupted → result ≡ Some (Err (record {}))) }
{
    match call {
        Ok(value) => Some(Ok(value)),
        Err(e) if e.kind() == ErrorKind::Interrupted => None,
        Err(_) => Some(Err(Failed)),
    }
}
