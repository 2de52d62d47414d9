//! A map from ids, which are 32-bit numbers, to items.
#![tactic(auto)]

mod iter;
mod map;
mod near;
mod places;
mod walk;

pub use iter::Iter;
pub use map::IdMap;
