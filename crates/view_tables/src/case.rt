use crate::comparing::compare_all;
use graph_types::NoMemory;
use std::alloc::{AllocError, Global};

/// Which graphs are made, how each is changed, and among how many shards it is parted.
#[derive(Clone, Copy)]
pub struct Case {
    /// The number of the first graph.
    pub first: u32,
    pub graphs: u32,
    /// The most vertices, edges and labels of a graph.
    pub vertices: u32,
    pub edges: u32,
    pub labels: u32,
    /// The most updates of a group.
    pub updates: u32,
    /// How many groups there are, after the one that makes the graph.
    pub groups: u32,
    pub shards: u32,
}

/// What a case comes to.
pub fn answer(alloc: Global, line: &str) -> Result<String, AllocError> {
    let words: Vec<&str> = line.split(' ').collect(alloc)?;
    let Some(case) = read_case(&words) else {
        return String::from_str(alloc, "no case");
    };
    if case.shards == 0 {
        return String::from_str(alloc, "no shards");
    }
    match compare_all(alloc, case) {
        Ok(outcome) => outcome.text(alloc),
        Err(NoMemory) => String::from_str(alloc, "out of memory"),
    }
}

/// The numbers of a case, in the order of its fields.
fn read_case(words: &[&str]) -> Option<Case> {
    let [
        first,
        graphs,
        vertices,
        edges,
        labels,
        updates,
        groups,
        shards,
    ] = words
    else {
        return None;
    };
    Some(Case {
        first: first.parse::<u32>().ok()?,
        graphs: graphs.parse::<u32>().ok()?,
        vertices: vertices.parse::<u32>().ok()?,
        edges: edges.parse::<u32>().ok()?,
        labels: labels.parse::<u32>().ok()?,
        updates: updates.parse::<u32>().ok()?,
        groups: groups.parse::<u32>().ok()?,
        shards: shards.parse::<u32>().ok()?,
    })
}
