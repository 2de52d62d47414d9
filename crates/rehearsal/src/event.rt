use graph_types::Stamp;

/// What may happen next. A shard is named by its number, a task by its timestamp.
#[derive(Clone, Copy, Debug, PartialEq, Eq)]
pub enum Event {
    /// The ingest puts the shard that it holds back, with its part of the next group.
    IngestPut(u32),
    /// The ingest takes the shard that the next part is for.
    IngestTake(u32),
    /// One timestamp more is stamped.
    Stamp,
    Begin(Stamp),
    /// A live task finds what its group takes away and brings.
    Explore(Stamp),
    Finish(Stamp),
    /// The watch learns that a task is finished.
    SeeDone(Stamp),
    /// The front is raised to what the watch knows.
    Raise,
    /// The watch looks at the front.
    SeeFront,
    /// The watch puts the shard that it holds back, pruned to the front that it saw.
    PrunePut(u32),
    PruneTake(u32),
}
