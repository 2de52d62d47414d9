ghost use Rattle.std.specs.Prelude.{◌≡◌, None};

use crate::streams::{ReaderSource, WriterSink};
use std::io;
use std::io::Write;
use std::rt::{HostRuntime, Stderr, Stdin, Stdout};

/// Standard input, which does not tell its bytes.
pub type StdSource = ReaderSource<Stdin>;

impl StdSource {
    /// The standard input of `rt`.
    pub fn new(rt: &HostRuntime) -> StdSource
        ensures { result ≡ record { left = None; faults = 0 } }
    {
        ReaderSource::over(rt.stdin())
    }
}

/// Standard output or standard error, which do not tell their bytes.
pub type StdSink = WriterSink<StdStream>;

impl StdSink {
    /// The standard output of `rt`. A write has reached the system when it returns.
    pub fn new(rt: &HostRuntime) -> StdSink
        ensures { result ≡ record { written = None; faults = 0 } }
    {
        WriterSink::over(StdStream::Output(rt.stdout()))
    }

    /// The standard error of `rt`. A write has reached the system when it returns.
    pub fn error(rt: &HostRuntime) -> StdSink
        ensures { result ≡ record { written = None; faults = 0 } }
    {
        WriterSink::over(StdStream::Error(rt.stderr()))
    }
}

/// Where the bytes of a `StdSink` go.
#[derive(Drop)]
pub enum StdStream {
    Output(Stdout),
    Error(Stderr),
}

impl Write for StdStream {
    fn write(&mut self, bytes: &[u8]) -> io::Result<usize> {
        match self {
            StdStream::Output(output) => output.write(bytes),
            StdStream::Error(error) => error.write(bytes),
        }
    }

    fn flush(&mut self) -> io::Result<()> {
        match self {
            StdStream::Output(output) => output.flush(),
            StdStream::Error(error) => error.flush(),
        }
    }
}
