ghost use Rattle.std.specs.Prelude.{◌≡◌, ◌+◌, ◌<◌, ◌^◌, ◌++◌, [], length, IfOk, OnOk, OnErr};
ghost use Rattle.record_tally.specs.meaning.Lines.{lines_beginning};
ghost use Rattle.record_tally.specs.storage.Remembered.{remembered};

use crate::counts::Counts;
use job_io::{Failed, Sink};
use std::alloc::{AllocError, Global};
use std::marker::Model;
use std::snapshot::Snapshot as Ghost;

/// A sink that counts the records in the lines that are written to it. It keeps no text: contracts see the bytes, which
/// take no room. It fails only where the room for none of them is refused.
#[derive(Drop)]
pub struct Tally {
    counts: Counts,
    bytes: Vec<Ghost<u8>>,
    faults: u64,
}

impl Model for Tally {
    ghost use Rattle.std.specs.Prelude.{◌≡◌};
    ghost use Rattle.record_tally.specs.storage.Remembered.{TallyState, remembered, counts_of};

    ghost Value = { TallyState };

    ghost view = { λ t. record { written = remembered t.bytes.items; faults = t.faults } };

    ghost invariant = { λ t. t.counts ≡ counts_of (remembered t.bytes.items) };
}

impl Tally {
    /// A tally of nothing.
    pub fn new(alloc: Global) -> Tally
        ensures { result ≡ record { written = []; faults = 0 } }
    {
        Tally {
            counts: Counts::new(),
            bytes: Vec::new(alloc),
            faults: 0,
        }
    }

    /// How many lines begin as a record does of a piece that goes.
    pub fn removed(&self) -> u64
        ensures { result ≡ lines_beginning 82 self.now.written }
    {
        self.counts.removed
    }

    /// How many lines begin as a record does of a piece that comes.
    pub fn added(&self) -> u64
        ensures { result ≡ lines_beginning 78 self.now.written }
    {
        self.counts.added
    }

    /// How many lines begin as one does that closes a timestamp.
    pub fn done(&self) -> u64
        ensures { result ≡ lines_beginning 68 self.now.written }
    {
        self.counts.done
    }
}

impl Sink for Tally {
    ghost use Rattle.std.specs.Prelude.{Some};

    ghost written = { λ t. Some t.written };

    ghost faults = { λ t. t.faults };

    /// Takes all bytes, in time linear in their number.
    fn write(&mut self, bytes: &[u8]) -> Result<usize, Failed> {
        let Ok(_seen) = remember(&mut self.bytes, bytes) else {
            self.faults = self.faults.saturating_add(1);
            return Err(Failed);
        };
        self.counts = self.counts.after(bytes);
        Ok(bytes.len())
    }
}

/// Has contracts see these bytes after those that they saw, and tells how many they see.
fn remember(seen: &mut Vec<Ghost<u8>>, bytes: &[u8]) -> Result<usize, AllocError>
    ensures count { IfOk result (λ n. n ≡ length seen.old.items + length bytes.now) }
    ensures fits { IfOk result (λ n. n < 2 ^ 64) }
    ensures ok { OnOk result (remembered seen.new.items ≡ remembered seen.old.items ++ bytes.now) }
    ensures err { OnErr result (seen.new.items ≡ seen.old.items) }
{
    seen.reserve(bytes.len())?;
    for byte in bytes {
        seen.push_reserved(Ghost::of(byte));
    }
    Ok(seen.len())
}
