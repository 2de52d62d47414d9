ghost use Rattle.std.specs.Prelude.{◌≡◌, ◌+◌, ◌<◌, ◌≤◌, [], ◌++◌, length, OnErr, IsOk};
ghost use Rattle.job_io.specs.calls.Ends.{Gathers, HasCause, Puts};
ghost use Rattle.job_io.specs.calls.WriteCalls.{WritesAll, WritesBoth};

use crate::{Sink, WriteFault, put_all};
use std::marker::Model;

/// How many bytes a page has room for.
pub const PAGE_BYTES: usize = 16384;

// A smaller page costs calls, and a larger one room on the stack.
const _: () = prove!(PAGE_BYTES >= 8192 && PAGE_BYTES <= 32768);

/// Output that is gathered before it goes to a sink, so that the sink has few long writes in place of
/// many short ones. Contracts see the bytes held.
#[derive(Drop)]
pub struct Page {
    bytes: [u8; PAGE_BYTES],
    len: usize,
}

impl Model for Page {
    ghost use Rattle.std.specs.Prelude.{◌≤◌, ℕ, List, take};
    ghost use Rattle.job_io.specs.declared.page.TheConstants.{PAGE_BYTES};

    ghost Value = { List ℕ };

    ghost view = { λ p. take p.len p.bytes };

    ghost invariant = { λ p. p.len ≤ PAGE_BYTES };
}

impl Page {
    /// A page that holds nothing. It takes 16 KiB where it stands, and no other memory.
    pub fn new() -> Page
        ensures { result ≡ [] }
    {
        Page {
            bytes: [0; PAGE_BYTES],
            len: 0,
        }
    }

    /// Adds `bytes` after those held. Where they do not fit, hands what is held to `out` first, and so
    /// too the bytes where they are longer than a page.
    pub fn put<O: Sink>(&mut self, out: &mut O, bytes: &[u8]) -> Result<(), WriteFault>
        ensures gathered { Gathers (O.written out.old) self.old (O.written out.new) self.new bytes.now result }
        ensures cause { HasCause (O.faults out.old) (O.faults out.new) result }
        ensures given_up { OnErr result (self.new ≡ []) }

        // What fits is only held.
        ensures fits { length self.old + length bytes.now ≤ PAGE_BYTES → IsOk result }
        ensures waits { length self.old + length bytes.now ≤ PAGE_BYTES → out.new ≡ out.old }

        // What does not fit asks for no more writes than what is held takes, and it itself where it is long.
        ensures sends { PAGE_BYTES < length self.old + length bytes.now → length bytes.now ≤ PAGE_BYTES
            → WritesAll O.write_gives out.old self.old out.new result }
        ensures passes { PAGE_BYTES < length bytes.now
            → WritesBoth O.write_gives out.old self.old bytes.now out.new result }
    {
        if bytes.len() <= PAGE_BYTES - self.len {
            self.hold(bytes);
            return Ok(());
        }
        self.send(out)?;
        if bytes.len() > PAGE_BYTES {
            return put_all(out, bytes);
        }
        self.hold(bytes);
        Ok(())
    }

    /// Hands what is held to `out`. After an error it is given up.
    pub fn send<O: Sink>(&mut self, out: &mut O) -> Result<(), WriteFault>
        ensures sent { Puts (O.written out.old) (O.written out.new) self.old result }
        ensures cause { HasCause (O.faults out.old) (O.faults out.new) result }
        ensures empty { self.new ≡ [] }
        ensures calls { WritesAll O.write_gives out.old self.old out.new result }
    {
        let result = put_all(out, &self.bytes[..self.len]);
        self.len = 0;
        result
    }

    /// Adds bytes that fit.
    fn hold(&mut self, bytes: &[u8])
        requires { length self.old + length bytes.now ≤ PAGE_BYTES }
        ensures { self.new ≡ self.old ++ bytes.now }
    {
        let end = self.len + bytes.len();
        self.bytes[self.len..end].copy_from_slice(bytes);
        self.len = end;
    }
}
