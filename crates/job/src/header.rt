ghost use Rattle.std.specs.Prelude.{◌≡◌, IfOk};
ghost use Rattle.line_fields.specs.meaning.Names.{first_names};
ghost use Rattle.program_grammar.specs.meaning.Header.{awaited_word};
ghost use Rattle.job.specs.calls.HeaderLine.{TakesHeaderLine};
ghost use Rattle.job.specs.calls.Taking.{TakesHeader};

use crate::fault::{JobFault, JobRefusal};
use crate::judging::Job;
use crate::stream::Stream;
use filter_polarity::Program;
use graph_types::{NoMemory, Snapshot};
use line_fields::Names;
use program_grammar::{HeaderReader, HeaderStep, ProgramFault, Word};
use std::alloc::Global;
use std::marker::Model;

/// A header that is being read, and the names of the labels in it. There is always room for those of the
/// conditions to come, whatever they are.
#[derive(Drop)]
pub struct Header {
    reader: HeaderReader,
    names: Names,
}

impl Model for Header {
    ghost use Rattle.program_grammar.specs.contracts.header.HeaderReader as readers;
    ghost use Rattle.program_grammar.specs.meaning.Programs.{RoomFor};
    ghost use Rattle.job.specs.storage.HeaderSoFar.{HeaderSoFar, header_code};

    ghost Value = { HeaderSoFar };

    ghost coded = { header_code readers.the_row.coded };

    ghost view = { λ h. record { reader = h.reader; names = h.names } };

    ghost invariant = { λ h. RoomFor h.reader h.names };
}

/// What a line of the header leads to.
#[derive(Drop)]
pub(crate) enum HeaderTurn {
    More(Header),
    Ready(Names, Program),
}

impl Header {
    /// A header of which no line was read.
    pub fn new(alloc: Global) -> Result<Header, NoMemory>
        ensures { IfOk result (λ h. h ≡ record { reader = HeaderReader.Mode; names = first_names }) }
    {
        Ok(Header {
            reader: HeaderReader::new(),
            names: Names::new(alloc)?,
        })
    }

    /// The first word that no line has begun with yet.
    pub fn missing(&self) -> Word
        ensures { result ≡ awaited_word self.now.reader }
    {
        self.reader.missing()
    }

    /// Takes line `number`, without its LF and CR, in time linear in it: the job goes on in its header, or with
    /// its stream.
    pub fn take(self, alloc: Global, number: u64, text: &[u8]) -> Result<Job, JobFault>
        ensures { TakesHeader number self text.now result }
    {
        match self.read(alloc, number, text) {
            Ok(HeaderTurn::More(next)) => Ok(Job::Heading(next)),
            Ok(HeaderTurn::Ready(names, program)) => match Box::new(alloc, program) {
                Ok(program) => Ok(Job::Streaming(Stream {
                    program,
                    names,
                    graph: Snapshot::new(alloc),
                    batch: None,
                })),
                Err(_) => Err(JobFault::NoMemory),
            },
            Err(ProgramFault::Refused { line, kind }) => {
                Err(JobFault::Refused(JobRefusal::Program { line, kind }))
            }
            Err(ProgramFault::NoMemory) => Err(JobFault::NoMemory),
        }
    }

    fn read(self, alloc: Global, number: u64, line: &[u8]) -> Result<HeaderTurn, ProgramFault>
        ensures { TakesHeaderLine number self line.now result }
    {
        let Header { reader, mut names } = self;
        match reader.take(alloc, line, number, &mut names) {
            Ok(HeaderStep::More(reader)) => Ok(HeaderTurn::More(Header { reader, names })),
            Ok(HeaderStep::Ready(program)) => Ok(HeaderTurn::Ready(names, program)),
            Err(fault) => Err(fault),
        }
    }
}
