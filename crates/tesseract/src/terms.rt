use record_text::RecordFormat;

/// What shows in what is written for a job: how much it may have, and the format of its records.
#[derive(Clone, Copy)]
pub struct Terms {
    /// The most lines.
    pub lines: u64,
    /// The most records of a timestamp.
    pub records: u32,
    pub format: RecordFormat,
}

/// How the work of a job is cut up, which shows nowhere in what is written.
#[derive(Clone, Copy)]
pub struct Plan {
    /// How many groups are mined at once, 1 to 4,096.
    pub window: u32,
    /// Among how many shards the vertices are parted.
    pub shards: u32,
}
