use graph_types::{LabelId, List};

/// An edge of a pattern with its label, between two of its vertices by their numbers from 1, the lower one first.
#[derive(Clone, Copy, Debug, PartialEq, Eq)]
pub struct PatternEdge {
    pub low: u32,
    pub high: u32,
    pub label: LabelId,
}

/// A labelled graph whose vertices are numbered from 1: the label of each vertex, in their order, and the edges,
/// ascending by the lower end and then by the higher one.
#[derive(Debug, Drop)]
pub struct Pattern {
    pub labels: List<LabelId>,
    pub edges: List<PatternEdge>,
}
