//! The canonical extension order: in which order the members of a connected set are taken up, so that a search
//! comes to each set once, and the test of one member more.
#![tactic(auto)]

mod adjacent;
mod extension;
pub mod laws;

pub use adjacent::Adjacent;
pub use extension::extends;
