use crate::case::{CaseFault, field, number, part, parts};
use crate::text::{Shown, read_text};
use arrayvec::ArrayVec;
use job_io::{
    ByteList, CallList, Failed, MemorySink, MemorySource, ReaderSource, Source, WriteFault,
    WriterSink, put_all,
};
use std::alloc::Global;
use std::fmt::Write;
use std::io::{self, ErrorKind, Read};

/// Reads `STEP FAILING .. / TEXT`: a source of the text that gives STEP bytes at a time, and fails at the FAILING
/// calls.
pub fn read_source(alloc: Global, text: &str) -> Result<MemorySource, CaseFault> {
    let (end, text) = parts(text)?;
    let bytes = read_text(alloc, text)?;
    let (step, failing) = field(end);
    let step = number(step)? as usize;
    if step == 0 {
        return Err(CaseFault::BadCase);
    }
    let bytes = list_bytes(alloc, bytes.as_slice())?;
    Ok(MemorySource::new(bytes, step, read_calls(alloc, failing)?))
}

/// Reads `ROOM STEP FAILING ..`: a sink with room for ROOM bytes that takes STEP bytes at a time, and fails at the
/// FAILING calls.
pub fn read_sink(alloc: Global, text: &str) -> Result<MemorySink, CaseFault> {
    let (room, text) = field(text);
    let room = number(room)? as usize;
    let (step, failing) = field(text);
    let step = number(step)? as usize;
    if step == 0 {
        return Err(CaseFault::BadCase);
    }
    let calls = read_calls(alloc, failing)?;
    Ok(MemorySink::new(alloc, room, step, calls)?)
}

/// `source CALLS STEP FAILING .. / TEXT`: each call has room for eight bytes.
pub fn source(alloc: Global, text: &str, answer: &mut String) -> Result<(), CaseFault> {
    let (calls, text) = field(text);
    let mut source = read_source(alloc, text)?;
    let mut room = [b'-'; 8];
    for _ in 0..number(calls)? {
        part(answer)?;
        match source.read(&mut room) {
            Ok(count) => write!(answer, "{count} [{}]", Shown(&room))?,
            Err(Failed) => answer.push_str("failed")?,
        }
    }
    Ok(())
}

/// `sink ROOM STEP FAILING .. / TEXT / ..`: puts each text, and tells what was written.
pub fn sink(alloc: Global, text: &str, answer: &mut String) -> Result<(), CaseFault> {
    let (end, texts) = parts(text)?;
    let mut sink = read_sink(alloc, end)?;
    for text in texts.split(" / ") {
        let bytes = read_text(alloc, text)?;
        let came = put_all(&mut sink, bytes.as_slice());
        say(came, answer)?;
    }
    write!(answer, ", [{}]", Shown(sink.bytes()))?;
    Ok(())
}

/// What came of a write.
pub fn say(came: Result<(), WriteFault>, answer: &mut String) -> Result<(), CaseFault> {
    part(answer)?;
    answer.push_str(match came {
        Ok(()) => "put",
        Err(WriteFault) => "fault",
    })?;
    Ok(())
}

/// `stream INTERRUPTIONS END / TEXT`: what comes of one read, and of putting the text, over an end that is
/// interrupted at its first calls, and then either `gives` and takes, or `fails`.
pub fn stream(alloc: Global, text: &str, answer: &mut String) -> Result<(), CaseFault> {
    let (end, text) = parts(text)?;
    let (interruptions, end) = field(end);
    let interruptions = number(interruptions)?;
    let fails = end == "fails";
    let mut source = ReaderSource::over(Fitful::new(interruptions, fails));
    match source.read(&mut [b'-'; 8]) {
        Ok(count) => write!(answer, "{count} read")?,
        Err(Failed) => answer.push_str("not read")?,
    }
    let bytes = read_text(alloc, text)?;
    let mut output = Fitful::new(interruptions, fails);
    let came = put_all(&mut WriterSink::over(&mut output), &bytes);
    say(came, answer)?;
    let written = output.taken.as_slice();
    write!(answer, ", [{}], {} flushes", Shown(written), output.flushes)?;
    Ok(())
}

/// An end that gives and takes at most three bytes a call, and takes eight in all.
#[derive(Drop)]
struct Fitful {
    interruptions: u32,
    fails: bool,
    taken: ArrayVec<u8, 8>,
    flushes: u32,
}

impl Fitful {
    fn new(interruptions: u32, fails: bool) -> Fitful {
        Fitful {
            interruptions,
            fails,
            taken: ArrayVec::new(),
            flushes: 0,
        }
    }

    fn call(&mut self) -> io::Result<()> {
        if self.interruptions > 0 {
            self.interruptions -= 1;
            return Err(io::Error::from(ErrorKind::Interrupted));
        }
        if self.fails {
            return Err(io::Error::from(ErrorKind::BrokenPipe));
        }
        Ok(())
    }
}

impl Read for Fitful {
    fn read(&mut self, buf: &mut [u8]) -> io::Result<usize> {
        self.call()?;
        let count = buf.len().min(3);
        buf[..count].fill(b'x');
        Ok(count)
    }
}

impl io::Write for Fitful {
    fn write(&mut self, bytes: &[u8]) -> io::Result<usize> {
        self.call()?;
        let count = bytes.len().min(3).min(self.taken.remaining_capacity());
        self.taken.try_extend_from_slice(&bytes[..count]).unwrap();
        Ok(count)
    }

    fn flush(&mut self) -> io::Result<()> {
        self.flushes = self.flushes.saturating_add(1);
        Ok(())
    }
}

fn read_calls(alloc: Global, text: &str) -> Result<CallList, CaseFault> {
    let mut calls = CallList::new(alloc);
    for word in text.split_whitespace() {
        calls.push(u64::from(number(word)?))?;
    }
    Ok(calls)
}

pub fn list_bytes(alloc: Global, bytes: &[u8]) -> Result<ByteList, CaseFault> {
    let mut list = ByteList::new(alloc);
    for b in bytes {
        list.push(*b)?;
    }
    Ok(list)
}
