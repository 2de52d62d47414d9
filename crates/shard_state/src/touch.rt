use graph_types::{Stamp, VertexId};

/// That a vertex changed at a timestamp.
#[derive(Clone, Copy, Debug)]
pub(crate) struct Touch {
    pub at: Stamp,
    pub vertex: VertexId,
}
