//! One vertex through time: what stood at its floor, and what changed since.
#![tactic(auto)]

mod cell;
mod change;
mod changes;
mod listing;
mod places;
mod tracks;

pub use cell::Cell;
pub use change::Change;
