//! Runs whose ends fail in mid-stream, which no file can be made to do.

use crate::run::run;
use graph_types::{FreeGate, NoMemory};
use job_io::{ByteList, CallList, MemorySink, MemorySource};
use std::alloc::Global;
use std::test::Fail;

/// A triangle that comes with its last edge.
const JOB: &[u8] = b"mode vertex
size 3
filter true
match vertices = 3 and edges = 3
begin
+v 1 a
+v 2 a
+v 3 a
+e 1 2
+e 2 3
+e 1 3
";

const RECORDS: &[u8] =
    b"records 2\nDONE 1 0\nDONE 2 0\nDONE 3 0\nDONE 4 0\nDONE 5 0\nNEW 6 1 2 3\nDONE 6 1\n";

/// A run whose source gives a byte a call.
#[derive(Clone, Copy)]
struct Run {
    command: &'static str,
    input: &'static [u8],
    /// The calls that fail, or 0, of the source, of the sink and of standard error.
    failing: [u64; 3],
    /// How many bytes the sink has room for.
    room: usize,
    /// What is wanted.
    status: u8,
    output: &'static [u8],
    error: &'static [u8],
}

const RUNS: [Run; 8] = [
    Run {
        command: "mine",
        input: JOB,
        failing: [0, 0, 0],
        room: 1000,
        status: 0,
        output: RECORDS,
        error: b"",
    },
    // Of the last line `+e 1` was given.
    Run {
        command: "mine",
        input: JOB,
        failing: [110, 0, 0],
        room: 1000,
        status: 6,
        output: b"records 2\nDONE 1 0\nDONE 2 0\nDONE 3 0\nDONE 4 0\nDONE 5 0\n",
        error: b"read fault\n",
    },
    Run {
        command: "mine",
        input: JOB,
        failing: [0, 2, 0],
        room: 1000,
        status: 7,
        output: b"recor",
        error: b"write fault\n",
    },
    Run {
        command: "mine",
        input: JOB,
        failing: [0, 0, 0],
        room: 40,
        status: 7,
        output: b"records 2\nDONE 1 0\nDONE 2 0\nDONE 3 0\nDON",
        error: b"write fault\n",
    },
    // The status stays where it cannot be told.
    Run {
        command: "mine",
        input: JOB,
        failing: [1, 0, 2],
        room: 1000,
        status: 6,
        output: b"",
        error: b"read ",
    },
    Run {
        command: "fold",
        input: RECORDS,
        failing: [0, 0, 0],
        room: 1000,
        status: 0,
        output: b"1 2 3\n",
        error: b"",
    },
    Run {
        command: "fold",
        input: RECORDS,
        failing: [40, 0, 0],
        room: 1000,
        status: 6,
        output: b"",
        error: b"read fault\n",
    },
    Run {
        command: "fold",
        input: RECORDS,
        failing: [0, 0, 0],
        room: 3,
        status: 7,
        output: b"1 2",
        error: b"write fault\n",
    },
];

fn calls(alloc: Global, number: u64) -> Result<CallList, NoMemory> {
    let mut calls = CallList::new(alloc);
    if number > 0 {
        calls.push(number)?;
    }
    Ok(calls)
}

/// A source that gives a byte a call.
fn source(alloc: Global, text: &[u8], failing: u64) -> Result<MemorySource, NoMemory> {
    let mut bytes = ByteList::new(alloc);
    for byte in text {
        bytes.push(*byte)?;
    }
    Ok(MemorySource::new(bytes, 1, calls(alloc, failing)?))
}

/// A sink that takes at most 5 bytes a call.
fn sink(alloc: Global, room: usize, failing: u64) -> Result<MemorySink, NoMemory> {
    MemorySink::new(alloc, room, 5, calls(alloc, failing)?)
}

#[test]
fn runs_whose_ends_fail(rt: HostRuntime) -> Result<(), Fail> {
    let alloc = rt.alloc();
    for row in RUNS {
        let words = vec![in alloc; String::from_str(alloc, row.command)?]?;
        let [read, write, told] = row.failing;
        let mut input = source(alloc, row.input, read)?;
        let mut output = sink(alloc, row.room, write)?;
        let mut error = sink(alloc, 1000, told)?;
        let status = run(
            &rt,
            alloc,
            words.as_slice(),
            &mut input,
            &mut output,
            &mut error,
            &FreeGate,
        );
        assert_eq!(rt; status.number(), row.status);
        assert_eq!(rt; output.bytes(), row.output);
        assert_eq!(rt; error.bytes(), row.error);
    }
    Ok(())
}
