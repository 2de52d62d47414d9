//! Judges the lines of a job, one after another: they make its header, or are updates that its graph accepts,
//! alone or in batches, or one is refused and ends the job. The updates are made by the caller.
#![tactic(auto)]

mod fault;
mod header;
mod judging;
pub mod laws;
mod stream;

pub use fault::{JobFault, JobRefusal};
pub use header::Header;
pub use judging::Job;
pub use stream::Stream;
