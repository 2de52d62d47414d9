ghost use Rattle.std.specs.Prelude.{◌≡◌, ◌≤◌, ◌++◌, length, codes, decimal};
ghost use Rattle.tesseract.specs.meaning.Status.{fold_refusal_text, input_kind, limit_kind, program_kind, refusal_text};
ghost use Rattle.tesseract.specs.meaning.Status.{word_text};

use command_words::WordsFault;
use graph_types::Refusal;
use job::{JobFault, JobRefusal};
use job_io::ShortLine;
use program_grammar::{ProgramKind, Word};
use snapshot_fold::{FoldRefusal, FoldStop};

/// How a run ended.
#[derive(Clone, Copy, Debug, PartialEq, Eq)]
pub enum Status {
    /// The input was read to its end and everything was written.
    Ok,
    /// An allocation was refused.
    NoMemory,
    /// The words of the command line are no command.
    Usage,
    /// The header is no program.
    BadProgram { line: u64, kind: ProgramKind },
    /// A line of the stream is refused.
    BadInput { line: u64, kind: InputKind },
    /// A quantity passed its limit at this place.
    Limit { kind: LimitKind, at: u64 },
    /// The input could not be read.
    ReadFault,
    /// The output could not be written.
    WriteFault,
}

/// What is wrong with a line of the stream, or with the records.
#[derive(Clone, Copy, Debug, PartialEq, Eq)]
pub enum InputKind {
    /// The line is no update, or no record.
    BadLine,
    /// The graph refuses the update.
    Update(Refusal),
    /// The record contradicts those before it.
    Record(FoldRefusal),
    /// The lines end in a batch that is open.
    OpenBatch,
    /// The records end, and the timestamp that was named isn't done.
    NotDone,
}

/// What is limited.
#[derive(Clone, Copy, Debug, PartialEq, Eq)]
pub enum LimitKind {
    /// The lines of a job, or of records.
    Lines,
    /// The names of labels.
    Labels,
    /// The bytes of a line.
    LineBytes,
    /// The updates of a batch.
    Batch,
    /// The records of a timestamp.
    Records,
}

impl From<WordsFault> for Status {
    ghost use Rattle.std.specs.Prelude.{◌≡◌};
    ghost use Rattle.tesseract.specs.meaning.Status.{status_of_words};

    ghost from_gives = { λ fault status. status ≡ status_of_words fault };

    fn from(fault: WordsFault) -> Status {
        match fault {
            WordsFault::Usage => Status::Usage,
            WordsFault::NoMemory => Status::NoMemory,
        }
    }
}

impl From<JobRefusal> for Status {
    ghost use Rattle.std.specs.Prelude.{◌≡◌};
    ghost use Rattle.tesseract.specs.meaning.Status.{status_of_refusal};

    ghost from_gives = { λ refusal status. status ≡ status_of_refusal refusal };

    fn from(refusal: JobRefusal) -> Status {
        match refusal {
            JobRefusal::Program { line, kind } => Status::BadProgram { line, kind },
            JobRefusal::BadLine(line) => bad_input(line, InputKind::BadLine),
            JobRefusal::Update { line, why } => bad_input(line, InputKind::Update(why)),
            JobRefusal::Labels(at) => passed(LimitKind::Labels, at),
            JobRefusal::Batch(at) => passed(LimitKind::Batch, at),
            JobRefusal::OpenBatch(line) => bad_input(line, InputKind::OpenBatch),
            JobRefusal::LineBytes(at) => passed(LimitKind::LineBytes, at),
            JobRefusal::Lines(at) => passed(LimitKind::Lines, at),
        }
    }
}

impl From<JobFault> for Status {
    ghost use Rattle.std.specs.Prelude.{◌≡◌};
    ghost use Rattle.tesseract.specs.meaning.Status.{status_of_fault};

    ghost from_gives = { λ fault status. status ≡ status_of_fault fault };

    fn from(fault: JobFault) -> Status {
        match fault {
            JobFault::Refused(why) => Status::from(why),
            JobFault::NoMemory => Status::NoMemory,
        }
    }
}

impl From<FoldStop> for Status {
    ghost use Rattle.std.specs.Prelude.{◌≡◌};
    ghost use Rattle.tesseract.specs.meaning.Status.{status_of_fold};

    ghost from_gives = { λ stop status. status ≡ status_of_fold stop };

    fn from(stop: FoldStop) -> Status {
        match stop {
            FoldStop::NoMemory => Status::NoMemory,
            FoldStop::ReadFault => Status::ReadFault,
            FoldStop::BadLine(line) => bad_input(line, InputKind::BadLine),
            FoldStop::Refused { line, why } => bad_input(line, InputKind::Record(why)),
            FoldStop::NotDone(line) => bad_input(line, InputKind::NotDone),
            FoldStop::TooLong(at) => passed(LimitKind::LineBytes, at),
            FoldStop::TooMany(at) => passed(LimitKind::Lines, at),
        }
    }
}

fn bad_input(line: u64, kind: InputKind) -> Status
    ensures { result ≡ Status.BadInput line kind }
{
    Status::BadInput { line, kind }
}

fn passed(kind: LimitKind, at: u64) -> Status
    ensures { result ≡ Status.Limit kind at }
{
    Status::Limit { kind, at }
}

impl Status {
    ghost use Rattle.tesseract.specs.meaning.Status.{exit_number, status_line};

    /// The exit status of the program.
    pub fn number(&self) -> u8
        ensures { result ≡ exit_number self.now }
    {
        match self {
            Status::Ok => 0,
            Status::NoMemory => 1,
            Status::Usage => 2,
            Status::BadProgram { .. } => 3,
            Status::BadInput { .. } => 4,
            Status::Limit { .. } => 5,
            Status::ReadFault => 6,
            Status::WriteFault => 7,
        }
    }

    /// The line that tells of it on standard error, with its LF; nothing where all went well.
    pub fn line(&self) -> ShortLine
        ensures { result ≡ status_line self.now }
    {
        match self {
            Status::Ok => ShortLine::new(),
            Status::NoMemory => phrase(b"no memory\n"),
            Status::Usage => phrase(b"usage: tesseract COMMAND [--NAME VALUE]\n"),
            Status::BadProgram { line, kind } => {
                refusal(b"program: line ", *line, &program_kind_name(*kind))
            }
            Status::BadInput { line, kind } => refusal(b"input: line ", *line, &kind.name()),
            Status::Limit { kind, at } => limit(&kind.name(), *at),
            Status::ReadFault => phrase(b"read fault\n"),
            Status::WriteFault => phrase(b"write fault\n"),
        }
    }
}

fn program_kind_name(kind: ProgramKind) -> ShortLine
    ensures name { result ≡ program_kind kind }
    ensures short { length result ≤ 100 }
{
    match kind {
        ProgramKind::BadLine => phrase(b"BadLine"),
        ProgramKind::Missing(word) => {
            let mut name = phrase(b"Missing ");
            name.push(word_bytes(word));
            name
        }
        ProgramKind::SizeRange => phrase(b"SizeRange"),
        ProgramKind::TooDeep => phrase(b"TooDeep"),
        ProgramKind::TooLong => phrase(b"TooLong"),
        ProgramKind::NotFalling => phrase(b"NotFalling"),
    }
}

/// A word as a header has it.
fn word_bytes(word: Word) -> &'static [u8]
    ensures { result.now ≡ word_text word }
{
    match word {
        Word::Mode => b"mode",
        Word::Size => b"size",
        Word::Filter => b"filter",
        Word::Match => b"match",
        Word::Begin => b"begin",
    }
}

impl InputKind {
    fn name(&self) -> ShortLine
        ensures name { result ≡ input_kind self.now }
        ensures short { length result ≤ 100 }
    {
        match self {
            InputKind::BadLine => phrase(b"BadLine"),
            InputKind::Update(why) => refusal_name(why),
            InputKind::Record(why) => fold_refusal_name(*why),
            InputKind::OpenBatch => phrase(b"OpenBatch"),
            InputKind::NotDone => phrase(b"NotDone"),
        }
    }
}

fn refusal_name(why: &Refusal) -> ShortLine
    ensures name { result ≡ refusal_text why.now }
    ensures short { length result ≤ 100 }
{
    match why {
        Refusal::Loop => phrase(b"Loop"),
        Refusal::NoVertex(v) => {
            let mut name = phrase(b"NoVertex ");
            name.push_number(u64::from(v.0));
            name
        }
        Refusal::VertexExists => phrase(b"VertexExists"),
        Refusal::EdgeExists => phrase(b"EdgeExists"),
        Refusal::NoEdge => phrase(b"NoEdge"),
    }
}

fn fold_refusal_name(why: FoldRefusal) -> ShortLine
    ensures name { result ≡ fold_refusal_text why }
    ensures short { length result ≤ 100 }
{
    match why {
        FoldRefusal::WrongForm => phrase(b"WrongForm"),
        FoldRefusal::MixedModes => phrase(b"MixedModes"),
        FoldRefusal::OutOfOrder => phrase(b"OutOfOrder"),
        FoldRefusal::AddsPresent => phrase(b"AddsPresent"),
        FoldRefusal::RemovesAbsent => phrase(b"RemovesAbsent"),
        FoldRefusal::WrongCount { said, held } => {
            let mut name = phrase(b"WrongCount ");
            name.push_number(said);
            name.push(b" ");
            name.push_number(held);
            name
        }
    }
}

impl LimitKind {
    fn name(&self) -> ShortLine
        ensures name { result ≡ limit_kind self.now }
        ensures short { length result ≤ 100 }
    {
        match self {
            LimitKind::Lines => phrase(b"Lines"),
            LimitKind::Labels => phrase(b"Labels"),
            LimitKind::LineBytes => phrase(b"LineBytes"),
            LimitKind::Batch => phrase(b"Batch"),
            LimitKind::Records => phrase(b"Records"),
        }
    }
}

fn phrase(text: &[u8]) -> ShortLine
    requires { length text.now ≤ 100 }
    ensures { result ≡ text.now }
{
    let mut line = ShortLine::new();
    line.push(text);
    line
}

fn refusal(place: &[u8], number: u64, kind: &ShortLine) -> ShortLine
    requires place { length place.now ≤ 100 }
    requires kind { length kind.now ≤ 100 }
    ensures { result ≡ place.now ++ decimal number ++ codes ": " ++ kind.now ++ codes "\n" }
{
    let mut line = phrase(place);
    line.push_number(number);
    line.push(b": ");
    line.push(kind);
    line.push(b"\n");
    line
}

fn limit(kind: &ShortLine, at: u64) -> ShortLine
    requires { length kind.now ≤ 100 }
    ensures { result ≡ codes "limit: " ++ kind.now ++ codes " " ++ decimal at ++ codes "\n" }
{
    let mut line = phrase(b"limit: ");
    line.push(kind);
    line.push(b" ");
    line.push_number(at);
    line.push(b"\n");
    line
}
