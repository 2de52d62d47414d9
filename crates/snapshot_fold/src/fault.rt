use thiserror::Error;

/// Why a record is refused. The first that holds is told.
#[derive(Clone, Copy, Debug, PartialEq, Eq, Error)]
pub enum FoldRefusal {
    /// The line has the form of the other format: a head that isn't the first line that says anything, or a
    /// line that closes a timestamp, with a count in format 1 or without one in format 2.
    #[error("the line has the form of the other format")]
    WrongForm,
    /// The piece is of another mode than the first one that was accepted.
    #[error("the piece is of another mode than the first one")]
    MixedModes,
    /// The timestamp isn't the one after the last that is done, or the piece does not follow the last
    /// one of its timestamp: pieces that go stand before those that come, and both ascend.
    #[error("the record is out of order")]
    OutOfOrder,
    /// The piece that is to come is there.
    #[error("the piece that is to come is there")]
    AddsPresent,
    /// The piece that is to go isn't there.
    #[error("the piece that is to go isn't there")]
    RemovesAbsent,
    /// The line that closes the timestamp says another number of pieces than are there.
    #[error("the line says {said} pieces, and {held} are there")]
    WrongCount { said: u64, held: u64 },
}

/// Why a record was not taken.
#[derive(Clone, Copy, Debug, PartialEq, Eq, Error)]
pub enum FoldFault {
    /// The record is refused.
    #[error("{0}")]
    Refused(FoldRefusal),
    /// Memory ran out.
    #[error("out of memory")]
    NoMemory,
}
