use crate::comparing::compare_all;
use crate::programs::read;
use graph_types::NoMemory;
use line_fields::Names;
use std::alloc::Global;

/// Which graphs are made, and how each is changed.
#[derive(Clone, Copy)]
pub struct Case {
    /// The number of the first graph.
    pub first: u32,
    pub graphs: u32,
    /// The most vertices, edges and labels of a graph.
    pub vertices: u32,
    pub edges: u32,
    pub labels: u32,
    /// The most updates of a change.
    pub updates: u32,
    /// The most pieces that the search may list at a change.
    pub most: u32,
}

/// `FIRST GRAPHS VERTICES EDGES LABELS UPDATES MOST: PROGRAM`: compares the search with the listing on made graphs.
pub fn compare(alloc: Global, line: &str) -> Result<String, NoMemory> {
    let Some((numbers, text)) = line.split_once(": ") else {
        return Ok(String::from_str(alloc, "no case")?);
    };
    let words: Vec<&str> = numbers.split(' ').collect(alloc)?;
    let Some(case) = read_case(&words) else {
        return Ok(String::from_str(alloc, "no numbers")?);
    };
    let mut names = Names::new(alloc)?;
    match read(alloc, text, &mut names)? {
        Ok(program) => Ok(compare_all(alloc, case, &program)?.text(alloc)?),
        Err(_) => Ok(String::from_str(alloc, "no program")?),
    }
}

/// The numbers of a case, in the order of its fields.
pub fn read_case(words: &[&str]) -> Option<Case> {
    let [first, graphs, vertices, edges, labels, updates, most] = words else {
        return None;
    };
    Some(Case {
        first: first.parse::<u32>().ok()?,
        graphs: graphs.parse::<u32>().ok()?,
        vertices: vertices.parse::<u32>().ok()?,
        edges: edges.parse::<u32>().ok()?,
        labels: labels.parse::<u32>().ok()?,
        updates: updates.parse::<u32>().ok()?,
        most: most.parse::<u32>().ok()?,
    })
}
