ghost use Rattle.std.specs.Prelude.{◌≡◌, [], false, not, length, IfOk, OnOk, OnErr};
ghost use Rattle.std.specs.Bool.{OnFalse};
ghost use Rattle.std.specs.Iterator.{at_most};
ghost use Rattle.std.specs.Map.Iter.{ShowsInOrder, TakesFirst};
ghost use Rattle.snapshot_fold.specs.calls.Given.{same_value};
ghost use Rattle.snapshot_fold.specs.meaning.Pieces.{has_piece, with_piece, without_piece};

use crate::packed::PackedPiece;
use graph_types::{NoMemory, Piece};
use std::alloc::Global;
use std::collections::{BTreeSet, btree_set};
use std::marker::Model;

/// A set of pieces. Contracts see them ascending, each once.
///
/// They are packed while each has few members. With the first that has more, all are moved into a set of whole
/// pieces once, in time linear in their number, and stay there.
#[derive(Debug, Drop)]
pub struct HeldPieces {
    alloc: Global,
    kept: Kept,
}

#[derive(Debug, Drop)]
pub enum Kept {
    Packed(BTreeSet<PackedPiece>),
    Long(BTreeSet<Piece>),
}

impl Model for HeldPieces {
    ghost use Rattle.std.specs.Prelude.{List};
    ghost use Rattle.graph_types.specs.meaning.Piece.{PieceValue};
    ghost use Rattle.snapshot_fold.specs.storage.Held.{IsKept, pieces_kept};

    ghost Value = { List PieceValue };

    ghost view = { λ h. pieces_kept h.kept };

    ghost invariant = { λ h. IsKept h.kept };
}

impl HeldPieces {
    /// No piece. It takes its memory from `alloc`, and none yet.
    pub fn new(alloc: Global) -> HeldPieces
        ensures { result ≡ [] }
    {
        HeldPieces {
            alloc,
            kept: Kept::Packed(BTreeSet::new(alloc)),
        }
    }

    /// How many pieces there are.
    pub fn len(&self) -> usize
        ensures { result ≡ length self.now }
    {
        match &self.kept {
            Kept::Packed(pieces) => pieces.len(),
            Kept::Long(pieces) => pieces.len(),
        }
    }

    /// Whether the piece is there.
    pub fn contains(&self, piece: &Piece) -> bool
        ensures { result ≡ has_piece self.now piece.now }
    {
        match &self.kept {
            Kept::Packed(pieces) => match PackedPiece::of(piece) {
                Some(packed) => pieces.contains(&packed),
                None => false,
            },
            Kept::Long(pieces) => pieces.contains(piece),
        }
    }

    /// Puts a piece in, and says whether it is new. Only a new one takes memory.
    pub fn insert(&mut self, piece: &Piece) -> Result<bool, NoMemory>
        ensures added { IfOk result (λ added. added ≡ not (has_piece self.old piece.now)) }
        ensures keys { OnOk result (self.new ≡ with_piece self.old piece.now) }
        ensures unchanged { IfOk result (λ added. OnFalse added (self.new ≡ self.old)) }
        ensures err { OnErr result (self.new ≡ self.old) }
        ensures absent { OnErr result (has_piece self.old piece.now ≡ false) }
    {
        match &mut self.kept {
            Kept::Packed(pieces) => match PackedPiece::of(piece) {
                Some(packed) => Ok(pieces.insert(packed)?),
                None => {
                    let mut long = unpacked(self.alloc, pieces)?;
                    let added = long.insert(*piece)?;
                    self.kept = Kept::Long(long);
                    Ok(added)
                }
            },
            Kept::Long(pieces) => Ok(pieces.insert(*piece)?),
        }
    }

    /// Takes a piece out, and says whether it was there. Takes no memory.
    pub fn remove(&mut self, piece: &Piece) -> bool
        ensures test { result ≡ has_piece self.old piece.now }
        ensures keys { self.new ≡ without_piece self.old piece.now }
        ensures unchanged { OnFalse result (self.new ≡ self.old) }
    {
        match &mut self.kept {
            Kept::Packed(pieces) => match PackedPiece::of(piece) {
                Some(packed) => pieces.remove(&packed),
                None => false,
            },
            Kept::Long(pieces) => pieces.remove(piece),
        }
    }

    /// Goes over the pieces, ascending. It takes no memory.
    pub fn iter(&self) -> Pieces<'_>
        ensures rest { result ≡ self.now }
        ensures runs { ShowsInOrder same_value }
    {
        match &self.kept {
            Kept::Packed(pieces) => Pieces {
                left: Left::Packed(pieces.iter()),
            },
            Kept::Long(pieces) => Pieces {
                left: Left::Long(pieces.iter()),
            },
        }
    }
}

/// Whole pieces in place of packed ones.
fn unpacked(alloc: Global, packed: &BTreeSet<PackedPiece>) -> Result<BTreeSet<Piece>, NoMemory>
    ensures { IfOk result (λ long. long.keys ≡ packed.now.keys) }
{
    let mut long = BTreeSet::new(alloc);
    for piece in packed.iter() {
        long.insert(piece.piece())?;
    }
    Ok(long)
}

/// Goes over pieces, ascending. Contracts see those that are still to come.
#[derive(Drop)]
pub struct Pieces<'a> {
    left: Left<'a>,
}

#[derive(Drop)]
pub enum Left<'a> {
    Packed(btree_set::Iter<'a, PackedPiece>),
    Long(btree_set::Iter<'a, Piece>),
}

impl<'a> Model for Pieces<'a> {
    ghost use Rattle.std.specs.Prelude.{List};
    ghost use Rattle.graph_types.specs.meaning.Piece.{PieceValue};
    ghost use Rattle.snapshot_fold.specs.storage.Left.{pieces_left};

    ghost Value = { List PieceValue };

    ghost view = { λ p. pieces_left p.left };
}

impl<'a> Iterator for Pieces<'a> {
    type Item = Piece;

    ghost next_gives = { TakesFirst same_value };

    ghost remaining = { λ s. at_most (length s) };

    fn next(&mut self) -> Option<Piece> {
        match &mut self.left {
            Left::Packed(pieces) => Some(pieces.next()?.piece()),
            Left::Long(pieces) => Some(*pieces.next()?),
        }
    }
}
