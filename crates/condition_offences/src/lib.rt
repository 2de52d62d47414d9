//! Where the text of a condition first offends against the grammar. Nothing here runs: `specs/` and `proofs/` are the
//! crate.
#![tactic(auto)]

pub mod laws;
