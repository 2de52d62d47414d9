ghost use Rattle.std.specs.Prelude.{◌≡◌};
ghost use Rattle.record_text.specs.meaning.Text.{count_in};

/// How a text of records is written.
#[derive(Clone, Copy, Debug, PartialEq, Eq)]
pub enum RecordFormat {
    /// `DONE T` closes timestamp T.
    One,
    /// The first line is `records 2`, and `DONE T N` closes timestamp T: N is the number of NEW records
    /// less that of REM records so far, which is how many pieces are there.
    Two,
}

impl RecordFormat {
    /// What the line that closes a timestamp says of this number of pieces.
    pub fn count(self, pieces: u64) -> Option<u64>
        ensures { result ≡ count_in self pieces }
    {
        match self {
            RecordFormat::One => None,
            RecordFormat::Two => Some(pieces),
        }
    }
}
