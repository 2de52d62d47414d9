ghost use Rattle.std.specs.Prelude.{◌≡◌, ◌≤◌, SomeIff, length, map};
ghost use Rattle.std.specs.Cmp.{eq_by_cmp_equiv, partial_equiv_from_equiv, partial_order_from_total};
ghost use Rattle.std.specs.Ordering.{as_partial_cmp, eq_by_cmp};
ghost use Rattle.std.proofs.Common.{refl};
ghost use Rattle.graph_types.specs.meaning.Orders.{piece_cmp_total};
ghost use Rattle.graph_types.specs.meaning.Piece.{HasLowerFirst, piece_cmp};
ghost use Rattle.graph_types.specs.storage.Slots.{member_in, slot_of};
ghost use Rattle.snapshot_fold.specs.storage.Packed.{most_packed};

use graph_types::{Edge, Member, Mode, Piece, VertexId};
use std::cmp::Ordering;
use std::marker::Model;

/// The most members that are packed.
pub const MOST_PACKED: usize = 4;

/// A vertex's number with 0 beside it, or the numbers of an edge's ends.
type Slot = (u32, u32);

/// A piece of few members, as contracts see it too. It takes half of what a piece of any number takes, and
/// stands in the same order.
#[derive(Debug, Drop)]
pub struct PackedPiece {
    mode: Mode,
    len: u8,
    slots: [Slot; MOST_PACKED],
}

const _: () = prove!(size_of::<PackedPiece>() <= 36);

impl Model for PackedPiece {
    ghost use Rattle.graph_types.specs.meaning.Piece.{PieceValue};
    ghost use Rattle.graph_types.specs.storage.Slots.{piece_in};
    ghost use Rattle.snapshot_fold.specs.storage.Packed.{HoldsFew};

    ghost Value = { PieceValue };

    ghost view = { λ a. piece_in a.mode a.len a.slots };

    ghost invariant = { λ a. HoldsFew a.mode a.len a.slots };
}

impl PackedPiece {
    /// The piece, where it has few members.
    pub fn of(piece: &Piece) -> Option<PackedPiece>
        ensures { SomeIff result (length piece.now.members ≤ most_packed) piece.now }
    {
        let len = piece.len();
        if len > MOST_PACKED {
            return None;
        }
        let mut slots = [(0, 0); MOST_PACKED];
        for place in 0..len {
            slots[place] = slot(piece.get(place).unwrap());
        }
        Some(PackedPiece {
            mode: piece.mode(),
            len: len as u8,
            slots,
        })
    }

    /// The piece with room for any number of members.
    pub fn piece(&self) -> Piece
        ensures { result ≡ self.now }
    {
        let mut piece = Piece::empty(self.mode);
        for slot in self.live() {
            piece = piece.with(member(self.mode, *slot)).unwrap();
        }
        piece
    }

    fn live(&self) -> &[Slot]
        ensures { result.now ≡ map slot_of self.now.members }
    {
        &self.slots[..self.len as usize]
    }
}

impl PartialEq for PackedPiece {
    ghost eq = { eq_by_cmp piece_cmp };

    ghost laws = { partial_equiv_from_equiv (eq_by_cmp_equiv piece_cmp_total) };

    fn eq(&self, other: &PackedPiece) -> bool {
        self.cmp(other).is_eq()
    }
}

impl Eq for PackedPiece {
    ghost laws = { eq_by_cmp_equiv piece_cmp_total };
}

impl PartialOrd for PackedPiece {
    ghost partial_cmp = { as_partial_cmp piece_cmp };

    ghost laws = { partial_order_from_total piece_cmp_total };

    fn partial_cmp(&self, other: &PackedPiece) -> Option<Ordering> {
        Some(self.cmp(other))
    }
}

/// The order of pieces.
impl Ord for PackedPiece {
    ghost cmp = { piece_cmp };

    ghost total = { piece_cmp_total };

    ghost matches_partial_cmp = { λ p q. refl };

    ghost matches_eq = { λ p q. refl };

    fn cmp(&self, other: &PackedPiece) -> Ordering {
        let by_members = self.live().cmp(&other.live());
        self.mode.cmp(&other.mode).then(by_members)
    }
}

fn slot(member: Member) -> Slot
    ensures { result ≡ slot_of member }
{
    match member {
        Member::Vertex(v) => (v.0, 0),
        Member::Edge(e) => (e.a().0, e.b().0),
    }
}

fn member(mode: Mode, slot: Slot) -> Member
    requires { HasLowerFirst (member_in mode slot) }
    ensures { result ≡ member_in mode slot }
{
    match mode {
        Mode::Vertex => Member::Vertex(VertexId(slot.0)),
        Mode::Edge => Member::Edge(Edge::of(VertexId(slot.0), VertexId(slot.1)).unwrap()),
    }
}
