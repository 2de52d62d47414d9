use graph_types::{Gate, Point};
use std::sync::Wait;

/// What is passed at each point of mining a window. It says by its type whether it may wait there.
pub trait Pass {
    fn pass(&self, point: Point);
}

/// A gate, with the handle by which it may hold the thread.
#[derive(Drop)]
pub struct AtGate<'a, R, G> {
    pub rt: &'a R,
    pub gate: &'a G,
}

impl<'a, R: Wait, G: Gate> Pass for AtGate<'a, R, G> {
    fn pass(&self, point: Point) {
        self.gate.pass(self.rt, point)
    }
}
