//! A depth-first search over connected sets that comes to each of them once: the extension of a set by what can
//! be taken next, which is ESU (Wernicke 2006), for items of any kind.
#![tactic(auto)]

pub mod laws;
mod stack;

pub use stack::Stack;
