use graph_types::{LabelId, Stamp};

/// What a label became at a timestamp: `None` says that there was none from then on.
#[derive(Clone, Copy, Debug, PartialEq, Eq)]
pub struct Change {
    pub at: Stamp,
    pub label: Option<LabelId>,
}
