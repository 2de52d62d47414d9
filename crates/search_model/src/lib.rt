//! What a search from a change is to find, and which pieces it may look at: definitions and laws.
#![tactic(auto)]

pub mod laws;
