ghost use Rattle.std.specs.Prelude.{◌≡◌, ◌<◌, ℕ, List, length, Option, Result, Ok, ⊤};
ghost use Rattle.std.specs.Io.{ReadsAtMost, WritesAtMost};
ghost use Rattle.std.specs.Io.KnownBytes.{ReadConsumes, WriteAppends};
ghost use Rattle.job_io.specs.declared.ends.Failed.{Failed};
ghost use Rattle.job_io.specs.calls.Ends.{HasCause, HasRisen, Puts};
ghost use Rattle.job_io.specs.calls.WriteCalls.{WritesAll};

use thiserror::Error;

/// The system refused a read or a write. Nothing was read or written by the call.
#[derive(Clone, Copy, Debug, PartialEq, Eq, Error)]
#[error("the system refused to read or write")]
pub struct Failed;

/// A sink failed before all bytes were out.
#[derive(Clone, Copy, Debug, PartialEq, Eq, Error)]
#[error("the output could not be written")]
pub struct WriteFault;

impl From<Failed> for WriteFault {
    fn from(_failed: Failed) -> WriteFault {
        WriteFault
    }
}

/// Where bytes come from.
pub trait Source {
    /// The bytes still to come, where the source tells them.
    ghost left: { Self → Option (List ℕ) };

    /// How often the source has failed.
    ghost faults: { Self → ℕ };

    /// What a read into so many bytes may answer, and the source then.
    ghost read_gives: { Self → ℕ → Result ℕ Failed → Self → Type 0 } = { λ _ _ _ _. ⊤ };

    /// Takes the next bytes into the start of `buf` and tells how many. 0 into a buffer with room is the
    /// end of input.
    fn read(&mut self, buf: &mut [u8]) -> Result<usize, Failed>
        ensures bound { ReadsAtMost result buf.new }
        ensures bytes { ReadConsumes (left self.old) (left self.new) result buf.new }
        ensures cause { HasCause (faults self.old) (faults self.new) result }
        ensures gives { read_gives self.old (length buf.old) result self.new };
}

/// Where bytes go.
pub trait Sink {
    /// The bytes written so far, where the sink tells them.
    ghost written: { Self → Option (List ℕ) };

    /// How often the sink has failed.
    ghost faults: { Self → ℕ };

    /// What a write of bytes may answer, and the sink then.
    ghost write_gives: { Self → List ℕ → Result ℕ Failed → Self → Type 0 } = { λ _ _ _ _. ⊤ };

    /// Appends the first bytes and tells how many. 0 of a piece that has bytes is a failure too.
    fn write(&mut self, bytes: &[u8]) -> Result<usize, Failed>
        ensures bound { WritesAtMost result bytes.now }
        ensures bytes { WriteAppends (written self.old) (written self.new) result bytes.now }
        ensures cause { HasCause (faults self.old) (faults self.new) result }
        ensures none { result ≡ Ok 0 → 0 < length bytes.now → HasRisen (faults self.old) (faults self.new) }
        ensures gives { write_gives self.old bytes.now result self.new };
}

/// Writes all the bytes, in as many writes as the sink asks for: each is of all that is left.
pub fn put_all<O: Sink>(out: &mut O, bytes: &[u8]) -> Result<(), WriteFault>
    ensures written { Puts (O.written out.old) (O.written out.new) bytes.now result }
    ensures cause { HasCause (O.faults out.old) (O.faults out.new) result }
    ensures calls { WritesAll O.write_gives out.old bytes.now out.new result }
{
    let mut rest = bytes;
    while !rest.is_empty() {
        let n = out.write(rest)?;
        if n == 0 {
            return Err(WriteFault);
        }
        rest = rest.split_at(n).1;
    }
    Ok(())
}
