//! The events of shards that several actors take and put back, in any order, and what holds after each of them.
#![tactic(auto)]

pub mod laws;
