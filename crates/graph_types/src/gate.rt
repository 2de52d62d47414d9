use crate::Stamp;
use std::sync::Wait;

/// A moment of mining that a gate is told of.
#[derive(Clone, Copy, Debug, PartialEq, Eq)]
pub enum Point {
    /// All parts of the update with this timestamp are in the store.
    Stamped(Stamp),
    /// A worker begins the task with this timestamp.
    Begun(Stamp),
    /// A worker has finished the task with this timestamp.
    Finished(Stamp),
}

/// Is passed at each `Point`, and may hold the thread there for as long as it likes. A test uses one
/// to bring an order about; nothing that is mined depends on it.
pub trait Gate: Sync {
    fn pass<R: Wait>(&self, rt: &R, point: Point);
}

/// The gate that is always open.
#[derive(Clone, Copy, Debug)]
pub struct FreeGate;

impl Gate for FreeGate {
    fn pass<R: Wait>(&self, _rt: &R, _point: Point) {}
}
