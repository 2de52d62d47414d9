//! The least fit of a pattern in a picture, both as they are written in a case: labels, `;` and edges, then `/`, and
//! vertices with their labels, `;` and edges. A label stands after `=`, and is 0 where none is written.

use crate::made::{add_vertex, join_both};
use conditions::{Pattern, PatternEdge};
use graph_types::{LabelId, List, Mode, NoMemory, VertexId};
use picture::Picture;
use shapes::{Fit, fit};
use std::alloc::Global;

pub fn fitted(alloc: Global, case: &str) -> Result<String, NoMemory> {
    let s = read_pattern(alloc, part(case, '/', 0))?;
    let Some(q) = read_picture(part(case, '/', 1)) else {
        return Ok(String::from_str(alloc, "no picture")?);
    };
    if !s.is_within_limits() {
        return Ok(String::from_str(alloc, "no pattern")?);
    }
    match fit(&s, &q) {
        Some(found) => shown(alloc, &found),
        None => Ok(String::from_str(alloc, "none")?),
    }
}

/// The vertices of a fit, to its end and one place further.
fn shown(alloc: Global, found: &Fit) -> Result<String, NoMemory> {
    let mut text = String::new(alloc);
    for i in 0..9 {
        if let Some(v) = found.at(i) {
            let id = v.0;
            if !text.is_empty() {
                text.push_str(" ")?;
            }
            write!(text, "{id}")?;
        }
    }
    Ok(text)
}

fn read_pattern(alloc: Global, text: &str) -> Result<Pattern, NoMemory> {
    let mut labels = List::new(alloc);
    let mut edges = List::new(alloc);
    for word in part(text, ';', 0).split(' ') {
        if !word.is_empty() {
            labels.push(LabelId(number_in(word, ' ', 0)))?;
        }
    }
    for word in part(text, ';', 1).split(' ') {
        if !word.is_empty() {
            let ends = part(word, '=', 0);
            edges.push(PatternEdge {
                low: number_in(ends, '-', 0),
                high: number_in(ends, '-', 1),
                label: LabelId(number_in(word, '=', 1)),
            })?;
        }
    }
    Ok(Pattern { labels, edges })
}

fn read_picture(text: &str) -> Option<Picture> {
    let mut q = Picture::new(Mode::Vertex);
    for word in part(text, ';', 0).split(' ') {
        let id = VertexId(number_in(word, '=', 0));
        let label = LabelId(number_in(word, '=', 1));
        if !word.is_empty() && !add_vertex(&mut q, id, label) {
            return None;
        }
    }
    for word in part(text, ';', 1).split(' ') {
        let ends = part(word, '=', 0);
        let x = VertexId(number_in(ends, '-', 0));
        let y = VertexId(number_in(ends, '-', 1));
        let label = LabelId(number_in(word, '=', 1));
        if !word.is_empty() && !join_both(&mut q, x, y, label) {
            return None;
        }
    }
    Some(q)
}

/// The part of a text after `i` separators, or nothing.
fn part(text: &str, separator: char, i: usize) -> &str {
    let mut parts = text.split(separator);
    for _ in 0..i {
        parts.next();
    }
    parts.next().unwrap_or("")
}

/// The number that is this part, or 0.
pub fn number_in(text: &str, separator: char, i: usize) -> u32 {
    part(text, separator, i).parse::<u32>().unwrap_or(0)
}
