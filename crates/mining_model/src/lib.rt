//! What mining means: the definitions that the contracts of many crates cite, and the laws about them.
//! Nothing here runs; `specs/` is the crate.
#![tactic(auto)]

pub mod laws;
