ghost use Rattle.std.specs.Prelude.{◌≡◌, IfOk, Ok, OnErr, box_value};
ghost use Rattle.job.specs.calls.Counting.{batch_after as count_after, batch_with_update as count_with_update};
ghost use Rattle.job.specs.calls.Standing.{IsAt};
ghost use Rattle.job.specs.calls.Taking.{LearnsNames, TakesLine};
ghost use Rattle.job.specs.meaning.Judging.{Stage, close_at};
ghost use Rattle.cond_eval.specs.meaning.Patterns.{pattern_of};

use crate::fault::{JobFault, JobRefusal};
use filter_polarity::Program;
use graph_types::Snapshot;
use line_fields::Names;
use std::alloc::Global;
use update_reader::{Item, UpdateFault, read_line};
use update_rules::admit;

/// The most updates of a batch.
const MOST_BATCH_UPDATES: u32 = 1024;

/// The stream of a job so far: the program of its header, the names of the labels in both, the graph that the
/// updates left, and how many updates the open batch has, if one is open. The program has tables of some hundred bytes,
/// so it stands on the heap: a job is moved with each line.
#[derive(Drop)]
pub struct Stream {
    pub program: Box<Program>,
    pub names: Names,
    pub graph: Snapshot,
    pub batch: Option<u32>,
}

impl Stream {
    /// Takes line `number`, without its LF and CR, in time linear in it and a few look-ups. The graph accepts
    /// the update that is answered, and is still as it was: the caller makes the update in it before the next
    /// line. A fault leaves all as it was, but that the label of a refused update may have got its number.
    pub fn take(&mut self, alloc: Global, number: u64, text: &[u8]) -> Result<Item, JobFault>
        ensures judged { (stage : Stage) →
            IsAt stage (pattern_of (box_value self.old.program)) self.old.names self.old.graph self.old.batch →
            TakesLine number stage text.now self.old.names result self.new }
        ensures counted { IfOk result (λ item. count_after number self.old.graph self.old.batch item ≡ Ok self.new.batch) }
        ensures learnt { LearnsNames self.old.names text.now result self.new.names }
        ensures graph { self.new.graph ≡ self.old.graph }
        ensures program { self.new.program ≡ self.old.program }
        ensures err { OnErr result (self.new.batch ≡ self.old.batch) }
    {
        let item = match read_line(alloc, text, &mut self.names) {
            Ok(item) => item,
            Err(UpdateFault::BadLine) => return Err(JobFault::Refused(JobRefusal::BadLine(number))),
            Err(UpdateFault::TooManyLabels) => {
                return Err(JobFault::Refused(JobRefusal::Labels(number)));
            }
            Err(UpdateFault::NoMemory) => return Err(JobFault::NoMemory),
        };
        match batch_after(number, &self.graph, self.batch, &item) {
            Ok(batch) => {
                self.batch = batch;
                Ok(item)
            }
            Err(why) => Err(JobFault::Refused(why)),
        }
    }

    /// How the job ends where `number` lines were all; `None` where it ends well.
    pub(crate) fn close(&self, number: u64) -> Option<JobRefusal>
        ensures { (stage : Stage) →
            IsAt stage (pattern_of (box_value self.now.program)) self.now.names self.now.graph self.now.batch →
            result ≡ close_at number stage }
    {
        match self.batch {
            Some(_) => Some(JobRefusal::OpenBatch(number)),
            None => None,
        }
    }
}

/// How many updates the open batch has after an item, if one is open then.
fn batch_after(
    line: u64,
    graph: &Snapshot,
    batch: Option<u32>,
    item: &Item,
) -> Result<Option<u32>, JobRefusal>
    ensures { result ≡ count_after line graph.now batch item.now }
{
    match item {
        Item::Nothing => Ok(batch),
        Item::Commit => match batch {
            None => Ok(None),
            Some(_) => Err(JobRefusal::BadLine(line)),
        },
        Item::BatchBegin => match batch {
            None => Ok(Some(0)),
            Some(_) => Err(JobRefusal::BadLine(line)),
        },
        Item::BatchEnd => match batch {
            None => Err(JobRefusal::BadLine(line)),
            Some(_) => Ok(None),
        },
        Item::Update(update) => {
            let after = batch_with_update(line, batch)?;
            match admit(graph, update) {
                Ok(()) => Ok(after),
                Err(why) => Err(JobRefusal::Update { line, why }),
            }
        }
    }
}

/// How many updates the open batch has with one more.
fn batch_with_update(line: u64, batch: Option<u32>) -> Result<Option<u32>, JobRefusal>
    ensures { result ≡ count_with_update line batch }
{
    match batch {
        None => Ok(None),
        Some(len) => {
            if len < MOST_BATCH_UPDATES {
                Ok(Some(len + 1))
            } else {
                Err(JobRefusal::Batch(line))
            }
        }
    }
}
