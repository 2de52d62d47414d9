//! Definitions and lemmas on lists, orders and finite maps that many crates cite. They speak of no graph,
//! and nothing here runs: `specs/` and `proofs/` are the crate.
#![tactic(auto)]

pub mod laws;
