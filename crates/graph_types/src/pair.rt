use crate::{LabelId, NearList};

/// What a vertex has in two graphs: its label in each, `None` where it isn't there, and its neighbours,
/// ascending, each joined with it in one of the graphs at least.
#[derive(Debug, Drop)]
pub struct Pair {
    pub before: Option<LabelId>,
    pub after: Option<LabelId>,
    pub near: NearList,
}
