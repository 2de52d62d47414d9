use crate::VertexId;

/// Why a graph refuses an update: the first reason that holds, in this order.
#[derive(Clone, Copy, Debug, PartialEq, Eq)]
pub enum Refusal {
    /// The ends of the edge are one vertex.
    Loop,
    /// This vertex has to be there, and is not: the first one that was written.
    NoVertex(VertexId),
    /// The vertex that is to be added is there.
    VertexExists,
    /// The edge that is to be added is there.
    EdgeExists,
    /// The edge that is to be removed or labelled is absent.
    NoEdge,
}
