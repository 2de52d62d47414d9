ghost use Rattle.std.specs.Prelude.{◌≡◌, ◌+◌, ◌≤◌, [], ◌++◌, length, decimal};

use arrayvec::ArrayVec;
use itoa::Buffer;
use std::marker::Model;
use std::ops::DerefSlice;

/// How many bytes a short line has room for.
pub const SHORT_LINE_BYTES: usize = 384;

/// A short line that is being made. It takes no memory. Contracts see its bytes.
#[derive(Drop)]
pub struct ShortLine {
    bytes: ArrayVec<u8, SHORT_LINE_BYTES>,
}

impl Model for ShortLine {
    ghost use Rattle.std.specs.Prelude.{List, ℕ};

    ghost Value = { List ℕ };

    ghost view = { λ l. l.bytes.items };
}

impl ShortLine {
    /// The empty line.
    pub fn new() -> ShortLine
        ensures { result ≡ [] }
    {
        ShortLine {
            bytes: ArrayVec::new(),
        }
    }

    /// Adds bytes at the end.
    pub fn push(&mut self, bytes: &[u8])
        requires { length self.old + length bytes.now ≤ SHORT_LINE_BYTES }
        ensures { self.new ≡ self.old ++ bytes.now }
    {
        self.bytes.try_extend_from_slice(bytes).unwrap();
    }

    /// Adds the decimal digits of a number, at most 20.
    pub fn push_number(&mut self, n: u64)
        requires { length self.old + 20 ≤ SHORT_LINE_BYTES }
        ensures digits { self.new ≡ self.old ++ decimal n }
        ensures short { length self.new ≤ length self.old + 20 }
    {
        let mut digits = Buffer::new();
        self.push(digits.format(n).as_bytes());
    }

    /// The bytes so far.
    pub fn as_slice(&self) -> &[u8]
        ensures { result.now ≡ self.now }
    {
        self.bytes.as_slice()
    }
}

impl DerefSlice for ShortLine {
    type Elem = u8;

    ghost deref_gives = { λ line bytes. bytes ≡ line };

    fn deref(&self) -> &[u8] {
        self.as_slice()
    }
}
