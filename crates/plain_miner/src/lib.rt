//! The definitions' own programs: the embeddings of a snapshot by listing all small sets of its vertices or
//! edges, and the difference of two lists of pieces. Slow by design: they serve small jobs, and are the
//! yardstick of faster searches.
#![tactic(auto)]

mod difference;
mod drawing;
mod listing;
mod members;

pub use difference::without;
pub use listing::embeddings;
