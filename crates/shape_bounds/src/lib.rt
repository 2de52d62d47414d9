//! What a condition can say of a graph of which only the numbers of vertices and edges are known. No call takes memory.
#![tactic(auto)]

pub mod laws;
mod outcome;
mod outlook;
mod sums;

pub use outcome::{Outcome, may_fail, may_hold, outcome_of};
pub use outlook::Outlook;
