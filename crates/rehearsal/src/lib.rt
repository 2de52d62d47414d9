//! The machine of shards, tasks, stamps and prunes, run on one thread in any order of its events that digits choose.
#![tactic(auto)]

mod event;
mod listing;
mod machine;
mod rehearsing;
mod task;

pub use event::Event;
pub use machine::{Machine, MachineStop};
pub use rehearsing::{Rehearsed, rehearse};
pub use task::Task;
