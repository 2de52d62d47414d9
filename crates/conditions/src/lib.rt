//! Conditions on pictures: what they say, what they mean, and how large they may be.
#![tactic(auto)]

mod condition;
pub mod laws;
mod limits;
mod pattern;
mod size;

pub use condition::{Cond, Factor, FactorList, Op, Term};
pub use pattern::{Pattern, PatternEdge};
pub use sqlite_items::Boxed;
