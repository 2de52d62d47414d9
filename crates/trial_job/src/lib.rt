//! The job of a trial: a header and a stream of updates that are made from three numbers, and a source of their bytes.
#![tactic(auto)]

mod draws;
mod job;
mod source;

pub use job::trial_job;
pub use source::JobSource;
