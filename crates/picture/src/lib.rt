//! Small labelled graphs that grow and shrink with a search, and what takes what a search finds.
#![tactic(auto)]

mod catch;
mod links;
mod picture;

pub use catch::{Catch, CatchStop};
pub use picture::Picture;
