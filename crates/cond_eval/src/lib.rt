//! Whether conditions hold of a picture, by counting in it. No call takes memory.
#![tactic(auto)]

mod counting;
mod evaluation;

pub use evaluation::{holds, keeps, passes, value};
