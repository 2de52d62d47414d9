use std::alloc::{AllocError, Global};

/// What the comparisons of a case come to.
#[derive(Clone, Copy)]
pub enum Outcome {
    /// The shards tell what the snapshots have.
    Agreement(Sums),
    /// They don't at the graph with this number, and do at those before.
    Difference(u32),
}

/// How much was compared.
#[derive(Clone, Copy)]
pub struct Sums {
    /// How many groups were taken in.
    pub groups: usize,
    /// How many views were compared, how many vertices in them, and how many neighbours these have.
    pub views: usize,
    pub vertices: usize,
    pub near: usize,
    /// The most neighbours of a vertex.
    pub most: usize,
}

impl Outcome {
    pub fn text(&self, alloc: Global) -> Result<String, AllocError> {
        match self {
            Outcome::Agreement(sums) => sums.text(alloc),
            Outcome::Difference(graph) => format!(in alloc; "graph {graph} differs"),
        }
    }
}

impl Sums {
    pub fn new() -> Sums {
        Sums {
            groups: 0,
            views: 0,
            vertices: 0,
            near: 0,
            most: 0,
        }
    }

    pub fn add_groups(&mut self, groups: usize) {
        self.groups = self.groups.saturating_add(groups);
    }

    pub fn add_view(&mut self) {
        self.views = self.views.saturating_add(1);
    }

    /// One vertex more, with so many neighbours.
    pub fn add_vertex(&mut self, near: usize) {
        self.vertices = self.vertices.saturating_add(1);
        self.near = self.near.saturating_add(near);
        self.most = self.most.max(near);
    }

    fn text(&self, alloc: Global) -> Result<String, AllocError> {
        format!(in alloc;
            "{} groups, {} views, {} vertices, {} neighbours, {} at the most",
            self.groups, self.views, self.vertices, self.near, self.most
        )
    }
}
