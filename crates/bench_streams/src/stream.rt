ghost use Rattle.std.specs.Prelude.{◌<◌, ◌^◌};

use crate::draws::{below, mix};
use graph_types::{LabelId, Update, VertexId};

/// How the edges lie.
#[derive(Clone, Copy)]
pub enum Shape {
    /// One end of each edge is drawn by a power law, and the other from all vertices alike.
    Power,
    /// Each edge goes from one vertex to the next of the others.
    Star,
}

impl Shape {
    /// The shape that a word names.
    pub(crate) fn named(word: &str) -> Option<Shape> {
        match word {
            "power" => Some(Shape::Power),
            "star" => Some(Shape::Star),
            _ => None,
        }
    }
}

/// Which ids the vertices have, in the order in which they come.
#[derive(Clone, Copy)]
pub enum Ids {
    /// All over the range.
    Scattered,
    /// From the number of vertices down.
    Descending,
    /// Multiples of 2^16, and one more in each round.
    Multiples,
}

impl Ids {
    /// The ids that a word names.
    pub(crate) fn named(word: &str) -> Option<Ids> {
        match word {
            "scattered" => Some(Ids::Scattered),
            "descending" => Some(Ids::Descending),
            "multiples" => Some(Ids::Multiples),
            _ => None,
        }
    }
}

/// A graph that is built and then changed.
#[derive(Clone, Copy)]
pub struct Stream {
    pub shape: Shape,
    pub ids: Ids,
    pub vertices: u32,
    pub edges: u32,
}

impl Stream {
    /// How many updates build the graph.
    pub fn building(&self) -> u64
        ensures { result < 2 ^ 33 }
    {
        u64::from(self.vertices) + u64::from(self.edges)
    }

    /// The update with this number: first the vertices, then the edges, and then the churn.
    pub fn update(&self, number: u64) -> Update {
        let vertices = u64::from(self.vertices);
        if number < vertices {
            return self.vertex(number);
        }
        let number = number - vertices;
        let edges = u64::from(self.edges);
        if number < edges {
            self.edge(number, LabelId(1))
        } else {
            self.churn(number - edges)
        }
    }

    /// A vertex other than the first, by the number of the draw.
    pub fn draw(&self, number: u64) -> VertexId {
        let others = self.vertices.max(2) - 1;
        self.id(1 + below(mix(number), others))
    }

    /// The vertex at a place below their number.
    fn vertex(&self, place: u64) -> Update {
        let place = below(place, self.vertices.max(1));
        Update::AddVertex {
            id: self.id(place),
            label: LabelId(place % 5),
        }
    }

    fn edge(&self, number: u64, label: LabelId) -> Update {
        let (from, to) = self.ends(number);
        Update::AddEdge { from, to, label }
    }

    /// One step of a churn over the latest edges. Of a hundred steps 48 take the oldest edge out, 48 put a new
    /// one in, two set a label, and two take a vertex out and put it back.
    fn churn(&self, number: u64) -> Update {
        let label = LabelId(2);
        let edges = u64::from(self.edges);
        let (round, kind) = (number / 100, number % 100);
        match kind {
            96 => Update::LabelVertex {
                id: self.draw(number),
                label,
            },
            97 => {
                let window = round.wrapping_mul(48).wrapping_add(edges / 2);
                let (from, to) = self.ends(window);
                Update::LabelEdge { from, to, label }
            }
            98 => Update::RemoveVertex {
                id: self.draw(round),
            },
            99 => Update::AddVertex {
                id: self.draw(round),
                label,
            },
            _ => {
                let oldest = round.wrapping_mul(48).wrapping_add(kind / 2);
                if kind % 2 == 0 {
                    let (from, to) = self.ends(oldest);
                    Update::RemoveEdge { from, to }
                } else {
                    self.edge(oldest.wrapping_add(edges), label)
                }
            }
        }
    }

    /// The id of a vertex, by its place from 0.
    fn id(&self, place: u32) -> VertexId {
        VertexId(match self.ids {
            Ids::Scattered => place.wrapping_mul(2_654_435_761),
            Ids::Descending => self.vertices.wrapping_sub(place),
            Ids::Multiples => place.wrapping_mul(1 << 16).wrapping_add(place >> 16),
        })
    }

    /// The ends of an edge, by its number.
    fn ends(&self, number: u64) -> (VertexId, VertexId) {
        match self.shape {
            Shape::Power => {
                let part = mix(number.wrapping_mul(2)) % (1 << 20);
                let cube = part.wrapping_mul(part).wrapping_mul(part) / (1 << 40);
                let place = cube.wrapping_mul(u64::from(self.vertices)) / (1 << 20);
                let from = self.id(below(place, self.vertices.max(1)));
                (from, self.draw(number.wrapping_mul(2).wrapping_add(1)))
            }
            Shape::Star => {
                let others = self.vertices.max(2) - 1;
                let place = number.wrapping_mul(2_654_435_761);
                (self.id(0), self.id(1 + below(place, others)))
            }
        }
    }
}
