use std::alloc::{AllocError, Global};

/// What the changes of a case come to.
#[derive(Clone, Copy)]
pub enum Outcome {
    /// On each graph the search tells what the listing does.
    Agreement(Sums),
    /// It doesn't at the graph with this number, and does at those before.
    Difference(u32),
}

/// What several changes come to in all.
#[derive(Clone, Copy)]
pub struct Sums {
    members: usize,
    /// How many members the largest net change has.
    largest: usize,
    gone: usize,
    come: usize,
    over: usize,
}

/// What one change comes to.
#[derive(Clone, Copy)]
pub struct Change {
    /// How many vertices and edges its net change has.
    pub members: usize,
    /// How many pieces go, and how many come.
    pub gone: usize,
    pub come: usize,
    /// These are more than the search may list.
    pub over: bool,
}

impl Outcome {
    pub fn text(&self, alloc: Global) -> Result<String, AllocError> {
        match self {
            Outcome::Agreement(sums) => sums.text(alloc),
            Outcome::Difference(graph) => format!(in alloc; "graph {graph} differs"),
        }
    }
}

impl Sums {
    pub fn new() -> Sums {
        Sums {
            members: 0,
            largest: 0,
            gone: 0,
            come: 0,
            over: 0,
        }
    }

    pub fn add(&mut self, change: Change) {
        self.members = self.members.saturating_add(change.members);
        self.largest = self.largest.max(change.members);
        self.gone = self.gone.saturating_add(change.gone);
        self.come = self.come.saturating_add(change.come);
        if change.over {
            self.over = self.over.saturating_add(1);
        }
    }

    fn text(&self, alloc: Global) -> Result<String, AllocError> {
        format!(in alloc;
            "{} changed, {} at the most, {} gone, {} come, {} over",
            self.members, self.largest, self.gone, self.come, self.over
        )
    }
}
