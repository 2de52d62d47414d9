//! Streams of updates for benchmarks, made from numbers alone: a graph is built, and then it changes on and on.
//! Nothing of a stream is kept. The peers in `bench/` make the same streams in plain Rust.
#![tactic(auto)]

mod draws;
mod stream;
mod words;

pub use stream::{Ids, Shape, Stream};
pub use words::Words;
