use crate::{evaluations, limits, listings, pictures};
use graph_types::{Mode, NoMemory, PieceList, Snapshot};
use line_fields::Names;
use picture::Picture;
use std::alloc::Global;

/// What the cases before have left.
#[derive(Drop)]
pub struct Tables {
    names: Names,
    picture: Picture,
    graph: Snapshot,
    pieces: PieceList,
}

impl Tables {
    pub fn new(alloc: Global) -> Result<Tables, NoMemory> {
        Ok(Tables {
            names: Names::new(alloc)?,
            picture: Picture::new(Mode::Vertex),
            graph: Snapshot::new(alloc),
            pieces: PieceList::new(alloc),
        })
    }

    /// What the calls of a case answer, if the line says one.
    pub fn answer(&mut self, alloc: Global, line: &str) -> Result<Option<String>, NoMemory> {
        if line.starts_with('#') {
            return Ok(None);
        }
        match line.split_once(": ") {
            None => Ok(None),
            Some((head, text)) => Ok(Some(self.answer_case(alloc, head, text)?)),
        }
    }

    fn answer_case(&mut self, alloc: Global, head: &str, text: &str) -> Result<String, NoMemory> {
        let names = &mut self.names;
        match head {
            "picture vertex" => {
                self.picture = Picture::new(Mode::Vertex);
                pictures::draw(alloc, &mut self.picture, names, text)
            }
            "picture edge" => {
                self.picture = Picture::new(Mode::Edge);
                pictures::draw(alloc, &mut self.picture, names, text)
            }
            "draw" => pictures::draw(alloc, &mut self.picture, names, text),
            "at" => pictures::at(alloc, &self.picture, names, text),
            "values" => evaluations::values(alloc, &self.picture, names, text),
            "holds" => evaluations::held(alloc, &self.picture, names, text),
            "keeps" => evaluations::kept(alloc, &self.picture, names, text),
            "falling" => evaluations::falling_modes(alloc, names, text),
            "graph" => {
                self.graph = Snapshot::new(alloc);
                listings::change(alloc, &mut self.graph, names, text)
            }
            "change" => listings::change(alloc, &mut self.graph, names, text),
            "pieces" => listings::list(alloc, &self.graph, names, &mut self.pieces, text),
            "changes" => listings::compare(alloc, &self.graph, names, &mut self.pieces, text),
            _ => limits::limited(alloc, names, head, text),
        }
    }
}
