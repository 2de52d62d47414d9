use graph_types::Refusal;
use program_grammar::ProgramKind;

/// Why a job ends before all its lines are accepted. Lines are counted from 1.
#[derive(Clone, Copy, Debug, PartialEq, Eq)]
pub enum JobRefusal {
    /// This line of the header is refused; or the lines end before `begin`, and this is how many there were.
    Program { line: u64, kind: ProgramKind },
    /// This line of the stream has none of the forms of an update.
    BadLine(u64),
    /// The graph refuses the update of this line.
    Update { line: u64, why: Refusal },
    /// This line brings a label for which no number is left.
    Labels(u64),
    /// The update of this line is one more than a batch may have.
    Batch(u64),
    /// The lines end in a batch that is open, and this is how many there were.
    OpenBatch(u64),
    /// This line has more bytes than a line may have.
    LineBytes(u64),
    /// This line is one more than are allowed.
    Lines(u64),
}

/// Why a line leads no further.
#[derive(Clone, Copy, Debug, PartialEq, Eq)]
pub enum JobFault {
    /// The line is refused, and the job ends there.
    Refused(JobRefusal),
    /// An allocation was refused.
    NoMemory,
}
