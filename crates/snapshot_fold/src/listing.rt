ghost use Rattle.std.specs.Prelude.{◌≡◌, ◌++◌, true, false, drop, IfOk, OnOk, MatchOption};
ghost use Rattle.snapshot_fold.specs.meaning.Pieces.{is_above as is_above_last, last_of};
ghost use Rattle.snapshot_fold.specs.storage.Undone.{begins_with, pieces_above, pieces_before_open, pieces_up_to};

use crate::held::HeldPieces;
use graph_types::{NoMemory, Piece, PieceList};
use std::alloc::Global;

/// The pieces before some that went and some that came, ascending, in a new list. `held` is passed
/// through once, beside the other two.
pub fn put_back(
    alloc: Global,
    held: &HeldPieces,
    went: &[Piece],
    came: &[Piece],
) -> Result<PieceList, NoMemory>
    ensures { IfOk result (λ pieces. pieces ≡ pieces_before_open held.now went.now came.now) }
{
    let mut pieces = PieceList::new(alloc);
    let mut to_put = went;
    let mut to_skip = came;
    for piece in held.iter() {
        to_put = put_up_to(&mut pieces, to_put, &piece)?;
        match behind_first(to_skip, &piece) {
            Some(behind) => to_skip = behind,
            None => pieces.push(piece)?,
        }
    }
    put_all(&mut pieces, to_put)?;
    Ok(pieces)
}

/// Puts the pieces at the end.
fn put_all(pieces: &mut PieceList, more: &[Piece]) -> Result<(), NoMemory>
    ensures { OnOk result (pieces.new ≡ pieces.old ++ more.now) }
{
    pieces.extend_from_slice(more)?;
    Ok(())
}

/// Puts the pieces at the end that aren't above the one given, and gives back the others.
fn put_up_to<'a>(
    pieces: &mut PieceList,
    went: &'a [Piece],
    piece: &Piece,
) -> Result<&'a [Piece], NoMemory>
    ensures put { OnOk result (pieces.new ≡ pieces.old ++ pieces_up_to went.now piece.now) }
    ensures left { IfOk result (λ left. left.now ≡ pieces_above went.now piece.now) }
{
    let mut left = went;
    while let [first, later @ ..] = left
        && first.cmp(piece).is_le()
    {
        pieces.push(*first)?;
        left = later;
    }
    Ok(left)
}

/// What stands after the first of some pieces, where that is the piece given.
fn behind_first<'a>(came: &'a [Piece], piece: &Piece) -> Option<&'a [Piece]>
    ensures { MatchOption result
        (begins_with came.now piece.now ≡ false)
        (λ behind. (begins_with came.now piece.now ≡ true) × (behind.now ≡ drop 1 came.now)) }
{
    match came {
        [first, behind @ ..] if first.cmp(piece).is_eq() => Some(behind),
        _ => None,
    }
}

/// Whether the piece is above the last of some others, if there are any.
pub fn is_above(before: &[Piece], piece: &Piece) -> bool
    ensures { result ≡ is_above_last (last_of before.now) piece.now }
{
    match before {
        [.., last] => last.cmp(piece).is_lt(),
        [] => true,
    }
}
