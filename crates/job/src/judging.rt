ghost use Rattle.std.specs.Prelude.{◌≡◌, IfOk};
ghost use Rattle.job.specs.calls.Standing.{IsStageOf};
ghost use Rattle.job.specs.meaning.Judging.{Stage, close_at, first_stage};

use crate::fault::JobRefusal;
use crate::header::Header;
use crate::stream::Stream;
use graph_types::NoMemory;
use program_grammar::ProgramKind;
use std::alloc::Global;

/// A job that is being read: its header, and then its stream. Each has a call `take` for its next line.
#[derive(Drop)]
pub enum Job {
    Heading(Header),
    Streaming(Stream),
}

impl Job {
    /// A job of which nothing was read.
    pub fn new(alloc: Global) -> Result<Job, NoMemory>
        ensures { IfOk result (λ job. IsStageOf first_stage job) }
    {
        Ok(Job::Heading(Header::new(alloc)?))
    }

    /// How the job ends where `number` lines were all; `None` where it ends well.
    pub fn close(&self, number: u64) -> Option<JobRefusal>
        ensures { (stage : Stage) → IsStageOf stage self.now → result ≡ close_at number stage }
    {
        match self {
            Job::Heading(header) => Some(JobRefusal::Program {
                line: number,
                kind: ProgramKind::Missing(header.missing()),
            }),
            Job::Streaming(stream) => stream.close(number),
        }
    }
}
