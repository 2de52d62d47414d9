//! Conditions as text: read and written.
#![tactic(auto)]

mod condition;
mod fault;
mod joint;
mod labels;
pub mod laws;
mod pattern;
mod reader;
mod term_name;
mod terms;
mod token;
mod tokens;
mod writing;

pub use condition::read_condition;
pub use fault::{ConditionFault, ConditionKind};
pub use writing::{put, put_cond, put_number};
