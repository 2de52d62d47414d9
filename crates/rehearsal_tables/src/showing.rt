use crate::case::CaseFault;
use delta_task::Delta;
use graph_types::{Member, Piece, Stamp, VertexId};
use shard_state::Shard;
use std::alloc::Global;
use std::fmt::Write;
use window_miner::Mined;

/// Of each group what goes and what comes, and the floors of the shards.
pub fn show_mined(mined: &Mined, answer: &mut String) -> Result<(), CaseFault> {
    for delta in mined.deltas.iter() {
        show_delta(delta, answer)?;
        answer.push_str(", ")?;
    }
    answer.push_str("floors")?;
    for shard in mined.shards.iter() {
        write!(answer, " {}", shard.floor().0)?;
    }
    Ok(())
}

/// What a shard tells of a vertex after its floor.
pub fn show_pair(
    alloc: Global,
    shard: &Shard,
    v: VertexId,
    answer: &mut String,
) -> Result<(), CaseFault> {
    let t = Stamp(shard.floor().0.saturating_add(1));
    if shard.floor() < t {
        let pair = shard.pair(alloc, v, t)?;
        write!(answer, "; {pair:?}")?;
    }
    Ok(())
}

fn show_delta(delta: &Delta, answer: &mut String) -> Result<(), CaseFault> {
    match delta {
        Delta::Listed { rem, add } => {
            show_pieces(rem, answer)?;
            answer.push_str(" ")?;
            show_pieces(add, answer)
        }
        Delta::Over => Ok(answer.push_str("over")?),
    }
}

fn show_pieces(pieces: &[Piece], answer: &mut String) -> Result<(), CaseFault> {
    answer.push_str("[")?;
    for (i, piece) in pieces.iter().enumerate() {
        if i > 0 {
            answer.push_str(", ")?;
        }
        show_piece(piece, answer)?;
    }
    answer.push_str("]")?;
    Ok(())
}

/// Vertices as `1 2`, and edges as `1-2 1-3`.
fn show_piece(piece: &Piece, answer: &mut String) -> Result<(), CaseFault> {
    for i in 0..piece.len() {
        if i > 0 {
            answer.push_str(" ")?;
        }
        if let Some(member) = piece.get(i) {
            show_member(member, answer)?;
        }
    }
    Ok(())
}

fn show_member(member: Member, answer: &mut String) -> Result<(), CaseFault> {
    match member {
        Member::Vertex(v) => write!(answer, "{}", v.0)?,
        Member::Edge(e) => write!(answer, "{}-{}", e.a().0, e.b().0)?,
    }
    Ok(())
}
