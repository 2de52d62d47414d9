use crate::{LabelId, VertexId};

/// One change of the graph, as its line says it. The ends of an edge stand as they were written.
#[derive(Clone, Copy, Debug, PartialEq, Eq)]
pub enum Update {
    AddVertex {
        id: VertexId,
        label: LabelId,
    },
    /// The edges at the vertex go with it.
    RemoveVertex {
        id: VertexId,
    },
    /// The vertex gets this label in place of the one that it has.
    LabelVertex {
        id: VertexId,
        label: LabelId,
    },
    AddEdge {
        from: VertexId,
        to: VertexId,
        label: LabelId,
    },
    RemoveEdge {
        from: VertexId,
        to: VertexId,
    },
    /// The edge gets this label in place of the one that it has.
    LabelEdge {
        from: VertexId,
        to: VertexId,
        label: LabelId,
    },
}
