//! One group of updates: which pieces it takes away, and which it brings.
#![tactic(auto)]

mod catching;
mod delta;
mod finding;
mod walking;

pub use catching::{DeltaCatch, DeltaNote};
pub use delta::{Delta, DeltaStop, delta_of};
pub use finding::{FindStop, finds_of};
pub use walking::{DeltaTurn, DeltaWalk};
