//! Records, as text: what an update took away and brought, a line each, and the line that closes a
//! timestamp. They are written and read back, in two formats. Pieces alone are written too, a line each.
#![tactic(auto)]

pub mod laws;
mod line;
mod line_end;
mod read;
mod record_format;
mod write;

pub use read::{BadRecord, RecordLine, read_record};
pub use record_format::RecordFormat;
pub use write::{write_delta, write_done, write_head, write_listing};
