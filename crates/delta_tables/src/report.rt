use crate::finds::Find;
use delta_task::Delta;
use graph_types::{Member, NoMemory, Piece};
use std::alloc::Global;
use std::fmt::Write;

/// What the searches tell of a change.
#[derive(Debug, Drop)]
pub struct Report {
    /// The finds, in ascending order.
    pub found: Vec<Find>,
    /// How many notes a catch keeps, or `None` where it has no room for one.
    pub kept: Option<u32>,
    pub delta: Delta,
    /// Where they rest after each read, the searches tell the same.
    pub same_in_turns: bool,
}

impl Report {
    pub fn text(&self, alloc: Global) -> Result<String, NoMemory> {
        let mut text = String::new(alloc);
        text.push_str("found ")?;
        show_finds(&self.found, &mut text)?;
        match self.kept {
            Some(kept) => write!(text, ", keeps {kept}")?,
            None => text.push_str(", no room")?,
        }
        show_delta(&self.delta, &mut text)?;
        text.push_str(if self.same_in_turns {
            ", the same in turns"
        } else {
            ", another in turns"
        })?;
        Ok(text)
    }
}

/// Finds, each with the graphs in which it is an embedding.
fn show_finds(finds: &[Find], text: &mut String) -> Result<(), NoMemory> {
    text.push_str("[")?;
    for (i, find) in finds.iter().enumerate() {
        if i > 0 {
            text.push_str(", ")?;
        }
        show_piece(&find.piece, text)?;
        if find.was {
            text.push_str(" was")?;
        }
        if find.is {
            text.push_str(" is")?;
        }
    }
    text.push_str("]")?;
    Ok(())
}

fn show_delta(delta: &Delta, text: &mut String) -> Result<(), NoMemory> {
    match delta {
        Delta::Listed { rem, add } => {
            text.push_str(", goes ")?;
            show_pieces(rem, text)?;
            text.push_str(", comes ")?;
            show_pieces(add, text)
        }
        Delta::Over => Ok(text.push_str(", over")?),
    }
}

fn show_pieces(pieces: &[Piece], text: &mut String) -> Result<(), NoMemory> {
    text.push_str("[")?;
    for (i, piece) in pieces.iter().enumerate() {
        if i > 0 {
            text.push_str(", ")?;
        }
        show_piece(piece, text)?;
    }
    text.push_str("]")?;
    Ok(())
}

/// Vertices as `1 2`, and edges as `1-2 1-3`.
fn show_piece(piece: &Piece, text: &mut String) -> Result<(), NoMemory> {
    for i in 0..piece.len() {
        if i > 0 {
            text.push_str(" ")?;
        }
        if let Some(member) = piece.get(i) {
            show_member(member, text)?;
        }
    }
    Ok(())
}

fn show_member(member: Member, text: &mut String) -> Result<(), NoMemory> {
    match member {
        Member::Vertex(v) => write!(text, "{}", v.0)?,
        Member::Edge(e) => write!(text, "{}-{}", e.a().0, e.b().0)?,
    }
    Ok(())
}
