//! Whether a condition needs the labels of vertices: where it doesn't, it is the same of graphs that differ in these
//! alone. No call takes memory.
#![tactic(auto)]

pub mod laws;
mod needs;

pub use needs::needs_vertex_labels;
