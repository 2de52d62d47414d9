use crate::case::{CaseFault, field, number};
use crate::members::{ShownEdge, read_edge, read_vertex};
use graph_types::{FetchStop, GraphView, LabelId, Pair, Refusal, Snapshot, TwoSnapshots};
use line_fields::Names;
use std::alloc::Global;
use std::fmt::Write;
use update_reader::{Item, UpdateFault, read_line};
use update_rules::{StepFault, step};

/// The graph that the cases build, and the names of its labels.
#[derive(Drop)]
pub struct Graph {
    names: Names,
    snapshot: Snapshot,
}

impl Graph {
    pub fn new(alloc: Global) -> Result<Graph, CaseFault> {
        Ok(Graph {
            names: Names::new(alloc)?,
            snapshot: Snapshot::new(alloc),
        })
    }

    /// `graph`: takes all out.
    pub fn clear(&mut self, alloc: Global, answer: &mut String) -> Result<(), CaseFault> {
        *self = Graph::new(alloc)?;
        answer.push_str("empty")?;
        Ok(())
    }

    /// `make UPDATE`
    pub fn make(
        &mut self,
        alloc: Global,
        text: &str,
        answer: &mut String,
    ) -> Result<(), CaseFault> {
        match self.step(alloc, text)? {
            None => answer.push_str("made")?,
            Some(why) => show_refusal(&why, answer)?,
        }
        Ok(())
    }

    /// `vertices`, each with the number of its label.
    pub fn vertices(&self, alloc: Global, answer: &mut String) -> Result<(), CaseFault> {
        let vertices = self.snapshot.vertices(alloc)?;
        write!(answer, "{}:", vertices.len())?;
        for id in vertices.as_slice() {
            write!(answer, " {}", id.0)?;
            show_label(self.snapshot.label(*id), answer)?;
        }
        Ok(())
    }

    /// `edges`, each with the number of its label.
    pub fn edges(&self, alloc: Global, answer: &mut String) -> Result<(), CaseFault> {
        let edges = self.snapshot.edges(alloc)?;
        write!(answer, "{}:", edges.len())?;
        for edge in edges.as_slice() {
            write!(answer, " {}", ShownEdge(*edge))?;
            show_label(self.snapshot.edge_label(*edge), answer)?;
        }
        Ok(())
    }

    /// `near ID`
    pub fn near(&self, alloc: Global, text: &str, answer: &mut String) -> Result<(), CaseFault> {
        let near = self.snapshot.near(alloc, read_vertex(text)?)?;
        write!(answer, "{}:", near.len())?;
        for id in near.as_slice() {
            write!(answer, " {}", id.0)?;
        }
        Ok(())
    }

    /// `fetch ID` or `fetch ID ID`: what a view of nothing and the graph has at a vertex; with a second one, of its
    /// neighbours that one alone. Each label is told before and after.
    pub fn fetch(&self, alloc: Global, text: &str, answer: &mut String) -> Result<(), CaseFault> {
        let nothing = Snapshot::new(alloc);
        let mut view = TwoSnapshots::new(&nothing, &self.snapshot);
        let pair = match text.split_once(' ') {
            None => view.fetch(alloc, read_vertex(text)?),
            Some((id, near)) => view.fetch_among(alloc, read_vertex(id)?, &[read_vertex(near)?]),
        };
        show_pair(pair, answer)?;
        write!(answer, ", reads {}", view.reads())?;
        Ok(())
    }

    /// `label ID` or `label ID ID`
    pub fn label(&self, text: &str, answer: &mut String) -> Result<(), CaseFault> {
        let label = match text.split_once(' ') {
            None => self.snapshot.label(read_vertex(text)?),
            Some((from, to)) => self.snapshot.edge_label(read_edge(from, to)?),
        };
        show_label(label, answer)
    }

    /// `spread COUNT STRIDE TIMES PLUS UPDATE`: makes the update COUNT times. In turn I its `#` stands for the remainder
    /// of I times STRIDE by COUNT, TIMES that, and PLUS more. Tells how many were accepted.
    pub fn spread(
        &mut self,
        alloc: Global,
        text: &str,
        answer: &mut String,
    ) -> Result<(), CaseFault> {
        let (count, text) = field(text);
        let count = number(count)?;
        let (stride, text) = field(text);
        let stride = number(stride)?;
        let (times, text) = field(text);
        let times = number(times)?;
        let (plus, text) = field(text);
        let plus = number(plus)?;
        let mut accepted = 0u32;
        for turn in 0..count {
            let place = turn.wrapping_mul(stride).checked_rem(count).unwrap_or(0);
            let id = place.wrapping_mul(times).wrapping_add(plus);
            let line = with_number(alloc, text, id)?;
            if self.step(alloc, line.as_str())?.is_none() {
                accepted = accepted.wrapping_add(1);
            }
        }
        write!(answer, "{accepted} made")?;
        Ok(())
    }

    /// Makes the update of a line, or tells why the graph refuses it.
    fn step(&mut self, alloc: Global, text: &str) -> Result<Option<Refusal>, CaseFault> {
        match read_line(alloc, text.as_bytes(), &mut self.names) {
            Ok(Item::Update(update)) => match step(&mut self.snapshot, &update) {
                Ok(()) => Ok(None),
                Err(StepFault::Refused(why)) => Ok(Some(why)),
                Err(StepFault::NoMemory) => Err(CaseFault::NoMemory),
            },
            Err(UpdateFault::NoMemory) => Err(CaseFault::NoMemory),
            _ => Err(CaseFault::BadCase),
        }
    }
}

fn show_refusal(why: &Refusal, answer: &mut String) -> Result<(), CaseFault> {
    match why {
        Refusal::Loop => answer.push_str("Loop")?,
        Refusal::NoVertex(id) => write!(answer, "NoVertex {}", id.0)?,
        Refusal::VertexExists => answer.push_str("VertexExists")?,
        Refusal::EdgeExists => answer.push_str("EdgeExists")?,
        Refusal::NoEdge => answer.push_str("NoEdge")?,
    }
    Ok(())
}

fn show_labels(
    before: Option<LabelId>,
    after: Option<LabelId>,
    answer: &mut String,
) -> Result<(), CaseFault> {
    show_label(before, answer)?;
    answer.push_str(" to ")?;
    show_label(after, answer)
}

fn show_label(label: Option<LabelId>, answer: &mut String) -> Result<(), CaseFault> {
    match label {
        Some(label) => write!(answer, "={}", label.0)?,
        None => answer.push_str("none")?,
    }
    Ok(())
}

fn show_pair(pair: Result<Pair, FetchStop>, answer: &mut String) -> Result<(), CaseFault> {
    let Ok(pair) = pair else {
        return Err(CaseFault::NoMemory);
    };
    show_labels(pair.before, pair.after, answer)?;
    for near in pair.near.as_slice() {
        write!(answer, ", {} ", near.to.0)?;
        show_labels(near.before, near.after, answer)?;
    }
    Ok(())
}

/// The text with a number in place of each `#`.
fn with_number(alloc: Global, text: &str, number: u32) -> Result<String, CaseFault> {
    let mut line = String::new(alloc);
    for (place, part) in text.split('#').enumerate() {
        if place > 0 {
            write!(line, "{number}")?;
        }
        line.push_str(part)?;
    }
    Ok(line)
}
