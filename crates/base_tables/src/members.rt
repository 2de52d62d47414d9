use crate::case::{CaseFault, field, part, parts};
use graph_types::{Edge, Member, Mode, Piece, VertexId};
use line_fields::read_id;
use std::cmp::Ordering;
use std::fmt::{self, Write};

pub fn read_vertex(word: &str) -> Result<VertexId, CaseFault> {
    read_id(word.as_bytes()).ok_or(CaseFault::BadCase)
}

/// The edge that two words name, in either order.
pub fn read_edge(from: &str, to: &str) -> Result<Edge, CaseFault> {
    Edge::of(read_vertex(from)?, read_vertex(to)?).ok_or(CaseFault::BadCase)
}

/// An edge as `1-2`.
#[derive(Drop)]
pub struct ShownEdge(pub Edge);

impl fmt::Display for ShownEdge {
    fn fmt<W: fmt::Write>(&self, f: &mut fmt::Formatter<W>) -> fmt::Result {
        let (low, high) = (self.0.a().0, self.0.b().0);
        write!(f, "{low}-{high}")
    }
}

/// `edge ID ID`
pub fn edge(text: &str, answer: &mut String) -> Result<(), CaseFault> {
    let (from, to) = field(text);
    match Edge::of(read_vertex(from)?, read_vertex(to)?) {
        Some(edge) => write!(answer, "{}", ShownEdge(edge))?,
        None => answer.push_str("none")?,
    }
    Ok(())
}

/// `piece MODE MEMBER ..`: puts the members into a piece, and tells which it refuses.
pub fn piece(text: &str, answer: &mut String) -> Result<(), CaseFault> {
    let (mode, words) = field(text);
    let mut piece = Piece::empty(read_mode(mode)?);
    for word in words.split_whitespace() {
        match with(&piece, word)? {
            Some(more) => piece = more,
            None => {
                part(answer)?;
                write!(answer, "not {word}")?;
            }
        }
    }
    show_piece(&piece, answer)
}

/// `order PIECE / PIECE`
pub fn order(text: &str, answer: &mut String) -> Result<(), CaseFault> {
    let (one, other) = parts(text)?;
    let order = read_piece(one)?.cmp(&read_piece(other)?);
    answer.push_str(match order {
        Ordering::Less => "before",
        Ordering::Equal => "same",
        Ordering::Greater => "after",
    })?;
    Ok(())
}

fn read_piece(text: &str) -> Result<Piece, CaseFault> {
    let (mode, words) = field(text);
    let mut piece = Piece::empty(read_mode(mode)?);
    for word in words.split_whitespace() {
        piece = with(&piece, word)?.ok_or(CaseFault::BadCase)?;
    }
    Ok(piece)
}

fn read_mode(word: &str) -> Result<Mode, CaseFault> {
    match word {
        "vertex" => Ok(Mode::Vertex),
        "edge" => Ok(Mode::Edge),
        _ => Err(CaseFault::BadCase),
    }
}

/// The piece with the vertex or the edge that a word names.
fn with(piece: &Piece, word: &str) -> Result<Option<Piece>, CaseFault> {
    match word.split_once('-') {
        None => {
            let vertex = read_vertex(word)?;
            Ok(piece.with(Member::Vertex(vertex)))
        }
        Some((from, to)) => {
            let edge = read_edge(from, to)?;
            Ok(piece.with(Member::Edge(edge)))
        }
    }
}

fn show_piece(piece: &Piece, answer: &mut String) -> Result<(), CaseFault> {
    let mode = match piece.mode() {
        Mode::Vertex => "vertex",
        Mode::Edge => "edge",
    };
    part(answer)?;
    if piece.is_empty() {
        write!(answer, "empty {mode} piece")?;
        return Ok(());
    }
    write!(answer, "{mode} piece of {}:", piece.len())?;
    for place in 0..=piece.len() {
        show_place(piece, place, answer)?;
    }
    Ok(())
}

fn show_place(piece: &Piece, place: usize, answer: &mut String) -> Result<(), CaseFault> {
    let Some(member) = piece.get(place) else {
        return Ok(());
    };
    match member {
        Member::Vertex(vertex) => write!(answer, " {}", vertex.0)?,
        Member::Edge(edge) => write!(answer, " {}", ShownEdge(edge))?,
    }
    Ok(())
}
