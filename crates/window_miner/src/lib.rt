//! Mines a window of groups: shards take in what each group changed, and what it takes away and brings is searched for
//! in the graphs that they hold before and after it.
#![tactic(auto)]

mod mining;
mod pass;

pub use mining::{Mined, mine_groups, mine_window};
pub use pass::{AtGate, Pass};
