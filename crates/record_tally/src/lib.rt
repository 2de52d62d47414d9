//! Counts records as they are written, and keeps none of them.
#![tactic(auto)]

mod counts;
pub mod laws;
mod tally;

pub use tally::Tally;
