ghost use Rattle.std.specs.Prelude.{◌≡◌};

use graph_types::{List, NoMemory};
use thiserror::Error;

/// What the program is to do.
#[derive(Clone, Copy, Debug, PartialEq, Eq)]
pub enum Verb {
    /// Reads a job and writes records.
    Mine,
    /// Reads records and writes the pieces at a timestamp.
    Fold,
    /// Reads records of either format and writes them in the later one.
    Migrate,
    /// Reads a job and writes records as `mine` does, on one thread, with the events of its machine in the order that
    /// digits choose.
    Rehearse,
    /// Makes a job from numbers, mines it, and writes how many records it has.
    Trial,
}

/// The options of all commands. One that isn't named, or that the command hasn't, has its default.
#[derive(Debug, Drop)]
pub struct Options {
    /// `--workers`, 1 to 16: the threads that mine. By default 2.
    pub workers: u32,
    /// `--shards`, 1 to 64: the parts in which the graph is kept. By default 8.
    pub shards: u32,
    /// `--window`, 1 to 4,096: the timestamps that are mined together. By default 256.
    pub window: u32,
    /// `--max-records`, 1 to 10,000,000: the most records of a timestamp. By default 100,000.
    pub max_records: u32,
    /// `--max-lines`, 1 to 4,000,000,000: the most lines of a job. By default 4,000,000,000.
    pub max_lines: u32,
    /// `--records`, 1 to 2: the format of the records. By default 2.
    pub records: u32,
    /// `--at`, 0 to 4,000,000,000: the timestamp to stop at. By default it is the last one.
    pub at: Option<u32>,
    /// `--seed`, 0 to 2,147,483,647: what the updates of a trial are drawn from. By default 1.
    pub seed: u32,
    /// `--vertices`, 2 to 10,000: the vertices of a trial. By default 200.
    pub vertices: u32,
    /// `--updates`, 0 to 1,000,000: the updates of a trial after its vertices. By default 2,000.
    pub updates: u32,
    /// `--schedule`, 0 to 4,096 digits: which events a rehearsal chooses. By default none.
    pub schedule: List<u8>,
}

/// A command with its options.
#[derive(Debug, Drop)]
pub struct Command {
    pub verb: Verb,
    pub options: Options,
}

/// Why some words are no command.
#[derive(Clone, Copy, Debug, PartialEq, Eq, Error)]
pub enum WordsFault {
    /// There is no word, the first one names no command, or the others aren't options that the command
    /// has, each at most once and with a value that it takes.
    #[error("the words are no command")]
    Usage,
    /// Memory ran out.
    #[error("out of memory")]
    NoMemory,
}

impl From<NoMemory> for WordsFault {
    ghost use Rattle.command_words.specs.declared.command.WordsFault.TheVariants as fault;

    ghost from_gives = { λ _ e. e ≡ fault.NoMemory };

    fn from(_error: NoMemory) -> WordsFault {
        WordsFault::NoMemory
    }
}
