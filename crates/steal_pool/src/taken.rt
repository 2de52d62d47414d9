/// What a steal answers.
#[derive(Clone, Copy, Debug, Drop, PartialEq, Eq)]
pub enum Taken<T> {
    /// The first task of the deque, or, where that was empty, of the queue.
    Task(T),
    /// The feed is shut, as the thief learns in this call. Tasks may be there still: steal again.
    Shut,
    /// The feed was known to be shut, and nothing was there.
    Ended,
}

/// Out of memory to put a task back. The task is handed back.
#[derive(Debug, Drop)]
pub struct Again<T> {
    pub task: T,
}
