//! The vertices of one class of their numbers, each through time, and the graph before and after a timestamp
//! that several such shards hold together.
#![tactic(auto)]

mod applying;
mod cells;
mod class;
pub mod laws;
mod owned_view;
mod shard;
pub mod sharing;
mod together;
mod touch;
mod touched;

pub use owned_view::OwnedView;
pub use shard::{Shard, ShardList};
pub use together::apply_parts;
