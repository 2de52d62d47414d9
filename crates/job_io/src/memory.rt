ghost use Rattle.std.specs.Prelude.{◌≡◌, ◌<◌, ◌≤◌, [], min, length, take, Some, IfOk, Ok, if◌then◌else◌};
ghost use Rattle.std.specs.Io.{ReadsAtMost, WritesAtMost};
ghost use Rattle.std.specs.Io.KnownBytes.{ReadConsumes, WriteAppends};
ghost use Rattle.job_io.specs.calls.Ends.{HasCause, HasRisen};
ghost use Rattle.job_io.specs.calls.Memory.{next_count, is_failing, read_answer, after_read, write_answer, after_write};

use crate::{Failed, Sink, Source};
use graph_types::{List, NoMemory};
use std::alloc::Global;
use std::marker::Model;

/// Bytes in memory.
pub type ByteList = List<u8>;

/// Numbers of calls, counted from 1.
pub type CallList = List<u64>;

/// A source of bytes in memory, for tests. It gives few bytes at a time and fails at the calls that it
/// is told.
#[derive(Debug, Drop)]
pub struct MemorySource {
    bytes: ByteList,
    given: usize,
    step: usize,
    tally: Tally,
}

impl Model for MemorySource {
    ghost use Rattle.std.specs.Prelude.{◌≤◌, length, drop};
    ghost use Rattle.job_io.specs.calls.Memory.{MemoryReading};

    ghost Value = { MemoryReading };

    ghost view = { λ s. record {
      left = drop s.given s.bytes;
      step = s.step;
      calls = s.tally.calls;
      failing = s.tally.failing;
      faults = s.tally.faults;
    } };

    ghost invariant = { λ s. (s.given ≤ length s.bytes) × (1 ≤ s.step) };
}

impl MemorySource {
    /// A source that gives `bytes`, at most `step` a call, and fails at the `failing` calls.
    pub fn new(bytes: ByteList, step: usize, failing: CallList) -> MemorySource
        requires { 1 ≤ step }
        ensures { result ≡ record { left = bytes; step = step; calls = 0; failing = failing; faults = 0 } }
    {
        MemorySource {
            bytes,
            given: 0,
            step,
            tally: Tally::new(failing),
        }
    }
}

impl Source for MemorySource {
    ghost left = { λ s. Some s.left };

    ghost faults = { λ s. s.faults };

    ghost read_gives = { λ s room answer t. (answer ≡ read_answer s room) × (t ≡ after_read s room) };

    /// Takes time in the length of the list of failing calls.
    fn read(&mut self, buf: &mut [u8]) -> Result<usize, Failed>
        ensures bound { ReadsAtMost result buf.new }
        ensures bytes { ReadConsumes (Some self.old.left) (Some self.new.left) result buf.new }
        ensures cause { HasCause self.old.faults self.new.faults result }
        ensures answer { result ≡ read_answer self.old (length buf.old) }
        ensures after { self.new ≡ after_read self.old (length buf.old) }
    {
        if self.tally.next_fails() {
            return Err(Failed);
        }
        let (_, left) = self.bytes.split_at(self.given);
        let n = copy_front(left, self.step, buf);
        self.given += n;
        Ok(n)
    }
}

/// Copies the first bytes of `from` into the start of `into`, at most `step`, and tells how many.
fn copy_front(from: &[u8], step: usize, into: &mut [u8]) -> usize
    ensures count { result ≡ min (min step (length into.old)) (length from.now) }
    ensures front { take result into.new ≡ take result from.now }
{
    let n = step.min(into.len()).min(from.len());
    into[..n].copy_from_slice(&from[..n]);
    n
}

/// A sink that keeps what is written in memory, for tests. It takes few bytes at a time, fails at the
/// calls that it is told, and has room for so many bytes.
#[derive(Debug, Drop)]
pub struct MemorySink {
    bytes: Vec<u8>,
    room: usize,
    step: usize,
    tally: Tally,
}

impl Model for MemorySink {
    ghost use Rattle.std.specs.Prelude.{◌≤◌, vec_len, vec_capacity};
    ghost use Rattle.job_io.specs.calls.Memory.{MemoryWriting};

    ghost Value = { MemoryWriting };

    ghost view = { λ s. record {
      written = s.bytes.items;
      room = s.room;
      step = s.step;
      calls = s.tally.calls;
      failing = s.tally.failing;
      faults = s.tally.faults;
    } };

    ghost invariant = { λ s. (vec_len s.bytes ≤ s.room) × (s.room ≤ vec_capacity s.bytes) × (1 ≤ s.step) };
}

impl MemorySink {
    /// A sink with room for `room` bytes, whose memory it takes at once. It takes at most `step` bytes a
    /// call, and fails at the `failing` calls.
    pub fn new(
        alloc: Global,
        room: usize,
        step: usize,
        failing: CallList,
    ) -> Result<MemorySink, NoMemory>
        requires { 1 ≤ step }
        ensures { IfOk result (λ s. s ≡ record {
          written = [];
          room = room;
          step = step;
          calls = 0;
          failing = failing;
          faults = 0;
        }) }
    {
        let bytes = Vec::with_capacity(alloc, room)?;
        Ok(MemorySink {
            bytes,
            room,
            step,
            tally: Tally::new(failing),
        })
    }

    /// What was written.
    pub fn bytes(&self) -> &[u8]
        ensures { result.now ≡ self.now.written }
    {
        self.bytes.as_slice()
    }
}

impl Sink for MemorySink {
    ghost written = { λ s. Some s.written };

    ghost faults = { λ s. s.faults };

    ghost write_gives = { λ s bytes answer t. (answer ≡ write_answer s (length bytes)) × (t ≡ after_write s bytes) };

    /// Takes no memory, and time in the length of the list of failing calls.
    fn write(&mut self, bytes: &[u8]) -> Result<usize, Failed>
        ensures bound { WritesAtMost result bytes.now }
        ensures bytes { WriteAppends (Some self.old.written) (Some self.new.written) result bytes.now }
        ensures cause { HasCause self.old.faults self.new.faults result }
        ensures none { result ≡ Ok 0 → 0 < length bytes.now → HasRisen self.old.faults self.new.faults }
        ensures answer { result ≡ write_answer self.old (length bytes.now) }
        ensures after { self.new ≡ after_write self.old bytes.now }
    {
        if self.tally.next_fails() {
            return Err(Failed);
        }
        let n = self.step.min(bytes.len()).min(self.room - self.bytes.len());
        if n == 0 && !bytes.is_empty() {
            self.tally.raise();
        }
        match self.bytes.extend_from_slice(&bytes[..n]) {
            Ok(()) => Ok(n),
            Err(_) => unreachable!("there is room for the bytes"),
        }
    }
}

/// The calls made on an end in memory, those that fail, and how often it has failed.
#[derive(Debug, Drop)]
struct Tally {
    calls: u64,
    failing: CallList,
    faults: u64,
}

impl Tally {
    fn new(failing: CallList) -> Tally
        ensures { result ≡ record { calls = 0; failing = failing; faults = 0 } }
    {
        Tally {
            calls: 0,
            failing,
            faults: 0,
        }
    }

    /// Counts one more call, and tells whether it fails, which is a fault.
    fn next_fails(&mut self) -> bool
        ensures answer { result ≡ is_failing self.old.failing (next_count self.old.calls) }
        ensures after { self.new ≡ record self.old {
          calls = next_count self.old.calls;
          faults = if result then next_count self.old.faults else self.old.faults;
        } }
        ensures kept { self.old.faults ≤ self.new.faults }
    {
        self.calls = self.calls.saturating_add(1);
        let fails = self.failing.contains(&self.calls);
        if fails {
            self.raise();
        }
        fails
    }

    /// Counts one more fault.
    fn raise(&mut self)
        ensures after { self.new ≡ record self.old { faults = next_count self.old.faults } }
        ensures kept { self.old.faults ≤ self.new.faults }
    {
        self.faults = self.faults.saturating_add(1);
    }
}
