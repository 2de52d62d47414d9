use crate::{EdgeList, VertexList};

/// How a graph differs from an earlier one: the vertices that came, went or have another label, and the
/// edges of which that is so although it is so of neither of their ends. Both lists ascend.
#[derive(Debug, Drop)]
pub struct Net {
    pub vertices: VertexList,
    pub edges: EdgeList,
}
