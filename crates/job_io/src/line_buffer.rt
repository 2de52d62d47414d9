// The block of bytes that a reader of lines works in: the line that it gave last, and what it took from the
// source and has not given.
ghost use Rattle.std.specs.Prelude.{◌≡◌, ◌+◌, ◌-◌, ◌≤◌, ℕ, List, [], ◌++◌, take, drop, length, IfOk, MatchResult};
ghost use Rattle.job_io.specs.calls.Ends.{HasCause};
ghost use Rattle.job_io.specs.storage.LineBuffer.{TakesBlock};
ghost use Rattle.job_io.specs.meaning.Lines.{most_line_bytes};

use crate::ends::{Failed, Source};
use graph_types::NoMemory;
use std::alloc::Global;
use std::marker::Model;

// The bytes of the block. With at most 4,096 of them unread, a read gets room for 28,672.
const BLOCK: usize = 32_768;

// A smaller block costs calls, and a larger one memory.
const _: () = prove!(BLOCK >= 16_384 && BLOCK <= 65_536);

#[derive(Drop)]
pub struct LineBuffer {
    bytes: Vec<u8>,
    line_start: usize,
    line_end: usize,
    start: usize,
    end: usize,
}

impl Model for LineBuffer {
    ghost use Rattle.std.specs.Prelude.{slice_range};
    ghost use Rattle.job_io.specs.storage.LineBuffer.{BufferValue, FillsBlock};

    ghost Value = { BufferValue };

    ghost view = { λ b. record {
      line = slice_range b.bytes.items b.line_start b.line_end;
      held = slice_range b.bytes.items b.start b.end;
    } };

    ghost invariant = { λ b. FillsBlock b.bytes.items b.line_start b.line_end b.start b.end };
}

impl LineBuffer {
    pub fn new(alloc: Global) -> Result<LineBuffer, NoMemory>
        ensures line { IfOk result (λ b. b.line ≡ []) }
        ensures held { IfOk result (λ b. b.held ≡ []) }
    {
        Ok(LineBuffer {
            bytes: vec![in alloc; 0; BLOCK]?,
            line_start: 0,
            line_end: 0,
            start: 0,
            end: 0,
        })
    }

    // The line that was given last.
    pub fn line(&self) -> &[u8]
        ensures { result.now ≡ self.now.line }
    {
        &self.bytes[self.line_start..self.line_end]
    }

    // The bytes taken and not given.
    pub fn held(&self) -> &[u8]
        ensures { result.now ≡ self.now.held }
    {
        &self.bytes[self.start..self.end]
    }

    // Gives the first `count` bytes as the line, and drops `ending` bytes after it.
    pub fn give(&mut self, count: usize, ending: usize)
        requires { count + ending ≤ length self.old.held }
        ensures line { self.new.line ≡ take count self.old.held }
        ensures held { self.new.held ≡ drop (count + ending) self.old.held }
    {
        self.line_start = self.start;
        self.line_end = self.start + count;
        self.start += count + ending;
    }

    // Takes a block after what is held, and tells how many bytes came: none at the end of the source.
    pub fn refill<S: Source>(&mut self, src: &mut S) -> Result<usize, Failed>
        requires { length self.old.held ≤ most_line_bytes }
        ensures line_gone { self.new.line ≡ [] }
        ensures taken { TakesBlock self.old.held self.new.held (S.left src.old) (S.left src.new) result }
        ensures cause { HasCause (S.faults src.old) (S.faults src.new) result }

        // All the room after what is held is offered, in one read.
        ensures asked { S.read_gives src.old (BLOCK - length self.old.held) result src.new }
    {
        self.bytes.copy_within(self.start..self.end, 0);
        self.end -= self.start;
        self.start = 0;
        self.line_start = 0;
        self.line_end = 0;
        let count = src.read(&mut self.bytes[self.end..])?;
        self.end += count;
        Ok(count)
    }
}
