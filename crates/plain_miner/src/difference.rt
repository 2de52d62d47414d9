ghost use Rattle.std.specs.Prelude.{◌≡◌, IfOk};
ghost use Rattle.std.specs.List.{list_any};
ghost use Rattle.graph_types.specs.meaning.Piece.{members_of_all};
ghost use Rattle.mining_model.specs.meaning.Changes.{same_members, difference};
ghost use Rattle.plain_miner.specs.meaning.Pieces.{piece_difference};

use graph_types::{NoMemory, Piece, PieceList};
use std::alloc::Global;

/// The pieces whose members no other piece has, in their order. Each piece is compared with each other
/// one.
pub fn without(alloc: Global, pieces: &[Piece], others: &[Piece]) -> Result<PieceList, NoMemory>
    ensures pieces { IfOk result (λ left. left ≡ piece_difference pieces.now others.now) }
    ensures members { IfOk result
        (λ left. members_of_all left ≡ difference (members_of_all pieces.now) (members_of_all others.now)) }
{
    let mut left = PieceList::new(alloc);
    for piece in pieces {
        if !is_among(piece, others) {
            left.push(*piece)?;
        }
    }
    Ok(left)
}

/// Whether another piece has the same members.
fn is_among(piece: &Piece, others: &[Piece]) -> bool
    ensures { result ≡ list_any (λ q. same_members piece.now.members q.members) others.now }
{
    others.iter().any(|other| same_members(piece, other))
}

/// Whether two pieces have the same members.
fn same_members(piece: &Piece, other: &Piece) -> bool
    ensures { result ≡ same_members piece.now.members other.now.members }
{
    if piece.len() != other.len() {
        return false;
    }
    for i in 0..piece.len() {
        if piece.get(i) != other.get(i) {
            return false;
        }
    }
    true
}
