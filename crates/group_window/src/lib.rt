//! Groups of updates that follow one another, each with its net change and its parts by shard.
#![tactic(auto)]

mod differences;
mod earlier;
mod groups;
mod window;

pub use window::Window;
