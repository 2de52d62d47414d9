use crate::{Ids, Shape, Stream};

/// What a command line asks for: a stream, and how many of its updates come after those that build the graph.
#[derive(Drop)]
pub struct Words {
    pub stream: Stream,
    pub steps: u32,
}

impl Words {
    /// Reads the shape, the ids, and the numbers of vertices, edges and steps.
    pub fn read(words: &[String]) -> Option<Words> {
        let [shape, ids, vertices, edges, steps] = words else {
            return None;
        };
        Some(Words {
            stream: Stream {
                shape: Shape::named(shape.as_str())?,
                ids: Ids::named(ids.as_str())?,
                vertices: vertices.parse::<u32>().ok()?,
                edges: edges.parse::<u32>().ok()?,
            },
            steps: steps.parse::<u32>().ok()?,
        })
    }
}
