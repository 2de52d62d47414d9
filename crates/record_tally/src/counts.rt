ghost use Rattle.std.specs.Prelude.{◌≡◌, ◌≤◌, length, true};
ghost use Rattle.record_tally.specs.calls.Counting.{HasRoom, counts_after, counts_with};
ghost use Rattle.record_tally.specs.meaning.Lines.{begins as begins_line};

/// How many lines of each kind were begun, and whether the next byte begins one.
#[derive(Clone, Copy, Debug)]
pub struct Counts {
    pub removed: u64,
    pub added: u64,
    pub done: u64,
    pub fresh: bool,
}

impl Counts {
    /// The counts of no bytes.
    pub fn new() -> Counts
        ensures { result ≡ record { removed = 0; added = 0; done = 0; fresh = true } }
    {
        Counts {
            removed: 0,
            added: 0,
            done: 0,
            fresh: true,
        }
    }

    /// The counts after some bytes more.
    pub fn after(self, bytes: &[u8]) -> Counts
        requires { HasRoom self (length bytes.now) }
        ensures { result ≡ counts_after self bytes.now }
    {
        let mut counts = self;
        for byte in bytes {
            counts = counts.with(*byte);
        }
        counts
    }

    /// The counts after one byte more.
    fn with(self, byte: u8) -> Counts
        requires { HasRoom self 1 }
        ensures { result ≡ counts_with self byte }
    {
        Counts {
            removed: self.removed + self.begins(b'R', byte),
            added: self.added + self.begins(b'N', byte),
            done: self.done + self.begins(b'D', byte),
            fresh: byte == b'\n',
        }
    }

    /// How many lines that begin with `first` this byte begins.
    fn begins(&self, first: u8, byte: u8) -> u64
        ensures count { result ≡ begins_line first self.now.fresh byte }
        ensures one { result ≤ 1 }
    {
        if self.fresh && byte == first { 1 } else { 0 }
    }
}
