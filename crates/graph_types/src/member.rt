use crate::{Edge, VertexId};

/// What a piece is made of: vertices in vertex mode, edges in edge mode. Vertices are ordered by
/// number, edges by the lower end and then by the higher one.
#[derive(Clone, Copy, Debug, PartialEq, Eq, PartialOrd, Ord, Hash)]
pub enum Member {
    Vertex(VertexId),
    Edge(Edge),
}
