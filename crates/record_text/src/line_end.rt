ghost use Rattle.std.specs.Prelude.{◌≡◌, ◌+◌, ◌≤◌, [], ◌∷◌, ◌++◌, length, drop, decimal};

use itoa::write_digits;
use std::marker::Model;
use std::ops::DerefSlice;

/// How many bytes there is room for: those of the longest record.
pub const LINE_BYTES: usize = 201;

/// A line that is made from its end to its start, so that digits are written where they stay. It takes
/// no memory. Contracts see its bytes so far.
#[derive(Drop)]
pub struct LineEnd {
    bytes: [u8; LINE_BYTES],
    start: usize,
}

impl Model for LineEnd {
    ghost use Rattle.std.specs.Prelude.{◌≤◌, ℕ, List, drop};
    ghost use Rattle.record_text.specs.declared.line_end.TheConstants.{LINE_BYTES};

    ghost Value = { List ℕ };

    ghost view = { λ l. drop l.start l.bytes };

    ghost invariant = { λ l. l.start ≤ LINE_BYTES };
}

impl LineEnd {
    /// No bytes.
    pub fn new() -> LineEnd
        ensures { result ≡ [] }
    {
        LineEnd {
            bytes: [0; LINE_BYTES],
            start: LINE_BYTES,
        }
    }

    /// Takes all bytes out.
    pub fn clear(&mut self)
        ensures { self.new ≡ [] }
    {
        self.start = LINE_BYTES;
    }

    /// Puts bytes before those that are there.
    pub fn prepend(&mut self, bytes: &[u8])
        requires { length bytes.now + length self.old ≤ LINE_BYTES }
        ensures { self.new ≡ bytes.now ++ self.old }
    {
        let start = self.start - bytes.len();
        self.bytes[start..self.start].copy_from_slice(bytes);
        self.start = start;
    }

    /// Puts a byte before those that are there.
    pub fn prepend_byte(&mut self, byte: u8)
        requires { length self.old + 1 ≤ LINE_BYTES }
        ensures { self.new ≡ byte ∷ self.old }
    {
        self.start -= 1;
        self.bytes[self.start] = byte;
    }

    /// Puts the decimal digits of a number, at most 20, before the bytes that are there.
    pub fn prepend_number(&mut self, n: u64)
        requires { length self.old + 20 ≤ LINE_BYTES }
        ensures digits { self.new ≡ decimal n ++ self.old }
        ensures short { length self.new ≤ length self.old + 20 }
    {
        self.start = write_digits(n, &mut self.bytes, self.start);
    }

    /// Puts the decimal digits of a vertex, at most 10, before the bytes that are there.
    pub fn prepend_id(&mut self, id: u32)
        requires { length self.old + 10 ≤ LINE_BYTES }
        ensures digits { self.new ≡ decimal id ++ self.old }
        ensures short { length self.new ≤ length self.old + 10 }
    {
        self.start = write_digits(u64::from(id), &mut self.bytes, self.start);
    }

    /// Takes the first byte out.
    pub fn drop_first(&mut self)
        requires { 1 ≤ length self.old }
        ensures { self.new ≡ drop 1 self.old }
    {
        self.start += 1;
    }

    /// The bytes so far.
    pub fn as_slice(&self) -> &[u8]
        ensures { result.now ≡ self.now }
    {
        &self.bytes[self.start..]
    }
}

impl DerefSlice for LineEnd {
    type Elem = u8;

    ghost deref_gives = { λ line bytes. bytes ≡ line };

    fn deref(&self) -> &[u8] {
        self.as_slice()
    }
}
