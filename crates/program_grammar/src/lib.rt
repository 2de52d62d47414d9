//! Programs as text: headers, read and written.
#![tactic(auto)]

mod fault;
mod header;
mod labels;
mod limited;
mod program;
mod writing;

pub use fault::{ProgramFault, ProgramKind};
pub use header::{HeaderReader, HeaderStep, Word};
pub use limited::{Filter, Matching, Size};
pub use program::read_program;
pub use writing::write_program;
