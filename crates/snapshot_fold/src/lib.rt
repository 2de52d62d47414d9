//! The pieces at a timestamp, from the records of what went and what came at each.
#![tactic(auto)]

mod fault;
mod fold;
mod folding;
mod forms;
mod held;
pub mod laws;
mod listing;
mod packed;

pub use fault::{FoldFault, FoldRefusal};
pub use fold::Fold;
pub use folding::{FoldStop, fold_records};
