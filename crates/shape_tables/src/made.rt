//! Pictures that are made from numbers, and patterns that are those pictures or differ in a little.
ghost use Rattle.std.specs.Prelude.{◌<◌};

use crate::draws::Draws;
use crate::orders::label_between;
use conditions::{Pattern, PatternEdge};
use graph_types::{Edge, LabelId, List, Mode, NoMemory, VertexId};
use picture::Picture;
use std::alloc::Global;

const MOST_VERTICES: usize = 9;

const MOST_EDGES: usize = 28;

/// A picture of 1 to 5 vertices, of which each two are joined as often as not.
pub fn draw_picture(draws: &mut Draws, labels: u32) -> Picture
    requires { 0 < labels }
{
    let mut q = Picture::new(Mode::Vertex);
    let vertices = draws.below(5);
    for k in 0..=vertices {
        let id = 10 * draws.below(4) + k;
        let label = draws.below(labels);
        add_vertex(&mut q, VertexId(id), LabelId(label));
    }
    for j in 0..q.vertices() {
        for i in 0..j {
            let is_joined = draws.below(2) == 0;
            let label = draws.below(2);
            if is_joined {
                join(&mut q, i, j, LabelId(label));
            }
        }
    }
    q
}

/// The picture as a pattern whose vertices are in the order in which they were added; or, three times in four, one in
/// which a vertex has another label, or other edges, or edges with other labels.
pub fn draw_pattern(alloc: Global, draws: &mut Draws, q: &Picture) -> Result<Pattern, NoMemory> {
    let twist = draws.below(4);
    let place = draws.below(5) as usize;
    let mut labels = List::new(alloc);
    let mut edges = List::new(alloc);
    for i in 0..q.vertices() {
        let is_changed = i == place;
        if let Some((v, label)) = q.vertex_at(i) {
            labels.push(changed_label(label, is_changed && twist == 1))?;
            push_edges(q, v, i, if is_changed { twist } else { 0 }, &mut edges)?;
        }
    }
    Ok(Pattern { labels, edges })
}

/// The edges from a vertex to those that were added after it.
fn push_edges(
    q: &Picture,
    v: VertexId,
    i: usize,
    twist: u32,
    edges: &mut List<PatternEdge>,
) -> Result<(), NoMemory> {
    for j in 0..q.vertices() {
        if i < j {
            if let Some((w, _)) = q.vertex_at(j) {
                push_edge(label_between(q, v, w), i, j, twist, edges)?;
            }
        }
    }
    Ok(())
}

fn push_edge(
    label: Option<LabelId>,
    i: usize,
    j: usize,
    twist: u32,
    edges: &mut List<PatternEdge>,
) -> Result<(), NoMemory> {
    let label = match label {
        Some(label) => {
            if twist == 2 {
                return Ok(());
            }
            changed_label(label, twist == 3)
        }
        None => {
            if twist != 2 {
                return Ok(());
            }
            LabelId(0)
        }
    };
    edges.push(PatternEdge {
        low: number_of(i),
        high: number_of(j),
        label,
    })?;
    Ok(())
}

/// The number of a pattern's vertex after `i` others.
fn number_of(i: usize) -> u32 {
    i.min(MOST_VERTICES) as u32 + 1
}

fn changed_label(label: LabelId, is_changed: bool) -> LabelId {
    if is_changed {
        LabelId(label.0 ^ 1)
    } else {
        label
    }
}

/// Adds a vertex, if it isn't there and there is room for it.
pub fn add_vertex(q: &mut Picture, v: VertexId, label: LabelId) -> bool {
    if q.vertices() == MOST_VERTICES || q.label_of(v).is_some() {
        return false;
    }
    q.add_vertex(v, label);
    true
}

fn join(q: &mut Picture, i: usize, j: usize, label: LabelId) {
    if let Some((x, _)) = q.vertex_at(i) {
        if let Some((y, _)) = q.vertex_at(j) {
            join_both(q, x, y, label);
        }
    }
}

/// Adds an edge, if it can be added.
pub fn join_both(q: &mut Picture, x: VertexId, y: VertexId, label: LabelId) -> bool {
    match Edge::of(x, y) {
        Some(edge) => add_edge(q, edge, label),
        None => false,
    }
}

fn add_edge(q: &mut Picture, edge: Edge, label: LabelId) -> bool {
    let (low, high) = (edge.a(), edge.b());
    if q.label_of(low).is_none() || q.label_of(high).is_none() {
        return false;
    }
    if q.edges() == MOST_EDGES || q.adjacent(low, high) {
        return false;
    }
    q.add_edge(edge, label);
    true
}
