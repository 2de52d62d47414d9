//! Pictures that grow and shrink.

use graph_types::{Edge, LabelId, NoMemory, Update, VertexId};
use line_fields::{Names, read_id};
use picture::Picture;
use std::alloc::Global;
use update_reader::{Item, UpdateFault, read_line};

/// The most vertices and edges of a picture.
const MOST_VERTICES: usize = 9;

const MOST_EDGES: usize = 28;

/// Adds what each update of a text adds, or takes away what was added last (`undo`). Tells what the picture
/// has then, or that a step cannot be made.
pub fn draw(
    alloc: Global,
    picture: &mut Picture,
    names: &mut Names,
    text: &str,
) -> Result<String, NoMemory> {
    for step in text.split(';') {
        if !draw_step(alloc, picture, names, step)? {
            return Ok(String::from_str(alloc, "refused")?);
        }
    }
    shown(alloc, picture, names)
}

/// What is known of a vertex by its id.
pub fn at(alloc: Global, picture: &Picture, names: &Names, text: &str) -> Result<String, NoMemory> {
    let Some(v) = read_id(text.as_bytes()) else {
        return Ok(String::from_str(alloc, "no id")?);
    };
    let degree = picture.degree(v);
    match picture.label_of(v) {
        Some(label) => {
            let name = name_of(names, label);
            Ok(format!(in alloc; "{name} {degree}")?)
        }
        None => Ok(format!(in alloc; "absent {degree}")?),
    }
}

fn draw_step(
    alloc: Global,
    picture: &mut Picture,
    names: &mut Names,
    step: &str,
) -> Result<bool, NoMemory> {
    if step == "undo" {
        return Ok(undo(picture));
    }
    match read_line(alloc, step.as_bytes(), names) {
        Ok(Item::Update(update)) => Ok(add(picture, &update)),
        Err(UpdateFault::NoMemory) => Err(NoMemory),
        _ => Ok(false),
    }
}

/// Takes away what was added last, or answers that there is nothing.
fn undo(picture: &mut Picture) -> bool {
    if picture.vertices() == 0 {
        return false;
    }
    picture.undo_last();
    true
}

/// Adds what an update adds, or answers that it cannot be added.
fn add(picture: &mut Picture, update: &Update) -> bool {
    match *update {
        Update::AddVertex { id, label } => add_vertex(picture, id, label),
        Update::AddEdge { from, to, label } => match Edge::of(from, to) {
            Some(edge) => add_edge(picture, edge, label),
            None => false,
        },
        _ => false,
    }
}

fn add_vertex(picture: &mut Picture, v: VertexId, label: LabelId) -> bool {
    if picture.vertices() == MOST_VERTICES || picture.label_of(v).is_some() {
        return false;
    }
    picture.add_vertex(v, label);
    true
}

fn add_edge(picture: &mut Picture, edge: Edge, label: LabelId) -> bool {
    let (low, high) = (edge.a(), edge.b());
    if picture.label_of(low).is_none() || picture.label_of(high).is_none() {
        return false;
    }
    if picture.edges() == MOST_EDGES || picture.adjacent(low, high) {
        return false;
    }
    picture.add_edge(edge, label);
    true
}

/// The vertices, each with its label, its degree and the vertices that are adjacent; the edges, each with its
/// label and those of its ends; and whether all is connected.
fn shown(alloc: Global, picture: &Picture, names: &Names) -> Result<String, NoMemory> {
    let mut text = String::new(alloc);
    for i in 0..picture.vertices() {
        push_vertex(&mut text, picture, names, i)?;
    }
    for i in 0..picture.edges() {
        push_edge(&mut text, picture, names, i)?;
    }
    text.push_str(if picture.connected() {
        "connected"
    } else {
        "not connected"
    })?;
    Ok(text)
}

fn push_vertex(
    text: &mut String,
    picture: &Picture,
    names: &Names,
    i: usize,
) -> Result<(), NoMemory> {
    let Some((v, label)) = picture.vertex_at(i) else {
        return Ok(());
    };
    let degree = picture.degree_at(i).unwrap_or(0);
    let id = v.0;
    let name = name_of(names, label);
    write!(text, "{id} {name} {degree}:")?;
    for j in 0..picture.vertices() {
        push_if_adjacent(text, picture, v, j)?;
    }
    text.push_str("; ")?;
    Ok(())
}

fn push_if_adjacent(
    text: &mut String,
    picture: &Picture,
    v: VertexId,
    j: usize,
) -> Result<(), NoMemory> {
    let Some((other, _)) = picture.vertex_at(j) else {
        return Ok(());
    };
    if picture.adjacent(v, other) {
        let id = other.0;
        write!(text, " {id}")?;
    }
    Ok(())
}

fn push_edge(
    text: &mut String,
    picture: &Picture,
    names: &Names,
    i: usize,
) -> Result<(), NoMemory> {
    let Some((edge, label)) = picture.edge_at(i) else {
        return Ok(());
    };
    let Some((low_label, high_label)) = picture.labels_at(i) else {
        return Ok(());
    };
    let (low, high) = (edge.a().0, edge.b().0);
    let name = name_of(names, label);
    let low_name = name_of(names, low_label);
    let high_name = name_of(names, high_label);
    write!(text, "{low}-{high} {name} {low_name} {high_name}; ")?;
    Ok(())
}

/// The name of a label.
fn name_of(names: &Names, label: LabelId) -> &str {
    match names.name(label) {
        Some(name) => str::from_utf8(name).unwrap_or("?"),
        None => "?",
    }
}
