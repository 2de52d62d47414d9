//! Which conditions pass from a picture to each part of it, and programs, whose filters do.
#![tactic(auto)]

mod falling_cond;
pub mod laws;
mod polarity;
mod program;

pub use conditions::{Boxed, Cond, Factor, FactorList, Op, Term};
pub use falling_cond::{Falling, NotFalling};
pub use polarity::falling;
pub use program::Program;
