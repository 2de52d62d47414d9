ghost use Rattle.std.specs.Prelude.{◌≡◌, ◌↔◌, ◌<◌, ◌≤◌, ◌+◌, [], ◌∷◌, ◌++◌, IsTrue, SomeIff, length, map, take, drop, slice_get, Some};
ghost use Rattle.std.specs.List.{insert};
ghost use Rattle.std.specs.Cmp.{eq_by_cmp_equiv, partial_equiv_from_equiv, partial_order_from_total};
ghost use Rattle.std.specs.Ordering.{as_partial_cmp, eq_by_cmp};
ghost use Rattle.std.proofs.Common.{refl};
ghost use Rattle.graph_types.specs.meaning.Orders.{piece_cmp_total};
ghost use Rattle.graph_types.specs.meaning.Piece.{CanJoin, HasLowerFirst, IsPiece, with_joined, piece_cmp};
ghost use Rattle.graph_types.specs.storage.Slots.{member_in, place_from, slot_of};

use crate::{Edge, Member, Mode, VertexId};
use std::cmp::Ordering;
use std::marker::Model;

const MOST_MEMBERS: usize = 8;

/// A vertex's number with 0 beside it, or the numbers of an edge's ends.
type Slot = (u32, u32);

/// Up to eight members of one mode, in ascending order. It holds them itself, in at most 72 bytes.
#[derive(Clone, Copy, Debug)]
pub struct Piece {
    mode: Mode,
    len: u8,
    slots: [Slot; MOST_MEMBERS],
}

const _: () = prove!(size_of::<Piece>() <= 72);

impl Model for Piece {
    ghost use Rattle.std.specs.Prelude.{length};
    ghost use Rattle.graph_types.specs.meaning.Piece.{PieceValue};
    ghost use Rattle.graph_types.specs.storage.Slots.{IsPacked, piece_in, slots_of};

    ghost Value = { PieceValue };

    ghost view = { λ a. piece_in a.mode a.len a.slots };

    ghost invariant = { λ a. IsPacked a.mode a.len a.slots };

    ghost inverse = { λ p. record { mode = p.mode; len = length p.members; slots = slots_of p.members } };

    ghost inverse_ok = { λ a h i. record { mode = a.mode; len = h.len_is i; slots = h.slots_are i } };
}

impl Piece {
    /// The piece with no members.
    pub fn empty(mode: Mode) -> Piece
        ensures { result ≡ record { mode = mode; members = [] } }
    {
        Piece {
            mode,
            len: 0,
            slots: [(0, 0); MOST_MEMBERS],
        }
    }

    /// The piece with one more member, or `None` where that is of the other mode, is there already, or
    /// would be the ninth.
    pub fn with(&self, m: Member) -> Option<Piece>
        ensures { SomeIff result (CanJoin self.now m) (with_joined self.now m) }
    {
        match (self.mode, m) {
            (Mode::Vertex, Member::Vertex(v)) => self.with_slot((v.0, 0)),
            (Mode::Edge, Member::Edge(e)) => self.with_slot((e.a().0, e.b().0)),
            _ => None,
        }
    }

    fn with_slot(&self, slot: Slot) -> Option<Piece>
        requires unused { slot_of (member_in self.now.mode slot) ≡ slot }
        requires lower_first { HasLowerFirst (member_in self.now.mode slot) }
        ensures { let m = member_in self.now.mode slot in SomeIff result (CanJoin self.now m) (with_joined self.now m) }
    {
        let len = self.len();
        if len == MOST_MEMBERS {
            return None;
        }
        let place = place_of(self.live(), slot)?;
        let mut slots = self.slots;
        put_slot(&mut slots, len, place, slot);
        Some(Piece {
            mode: self.mode,
            len: self.len + 1,
            slots,
        })
    }

    /// What its members are, also while it has none.
    pub fn mode(&self) -> Mode
        ensures { result ≡ self.now.mode }
    {
        self.mode
    }

    /// How many members it has.
    pub fn len(&self) -> usize
        ensures members { result ≡ length self.now.members }
        ensures piece { IsPiece self.now }
    {
        self.len as usize
    }

    /// Whether it has no member.
    pub fn is_empty(&self) -> bool
        ensures { IsTrue result ↔ (self.now.members ≡ []) }
    {
        self.len == 0
    }

    /// The member at place `i`, counted from 0 at the lowest.
    pub fn get(&self, i: usize) -> Option<Member>
        ensures { result ≡ slice_get self.now.members i }
    {
        let slot = self.live().get(i)?;
        member_of(self.mode, *slot)
    }

    fn live(&self) -> &[Slot]
        ensures { result.now ≡ map slot_of self.now.members }
    {
        &self.slots[..self.len as usize]
    }
}

impl PartialEq for Piece {
    ghost eq = { eq_by_cmp piece_cmp };

    ghost laws = { partial_equiv_from_equiv (eq_by_cmp_equiv piece_cmp_total) };

    fn eq(&self, other: &Piece) -> bool
        ensures value { result ≡ eq_by_cmp piece_cmp self.now other.now }
        ensures same { IsTrue result ↔ (self.now ≡ other.now) }
    {
        self.cmp(other).is_eq()
    }
}

impl Eq for Piece {
    ghost laws = { eq_by_cmp_equiv piece_cmp_total };
}

impl PartialOrd for Piece {
    ghost partial_cmp = { as_partial_cmp piece_cmp };

    ghost laws = { partial_order_from_total piece_cmp_total };

    fn partial_cmp(&self, other: &Piece) -> Option<Ordering> {
        Some(self.cmp(other))
    }
}

/// By mode, and then as lists: by the first members that differ, and a piece stands before those that
/// it begins.
impl Ord for Piece {
    ghost cmp = { piece_cmp };

    ghost total = { piece_cmp_total };

    ghost matches_partial_cmp = { λ p q. refl };

    ghost matches_eq = { λ p q. refl };

    fn cmp(&self, other: &Piece) -> Ordering {
        let by_members = self.live().cmp(&other.live());
        self.mode.cmp(&other.mode).then(by_members)
    }
}

fn member_of(mode: Mode, slot: Slot) -> Option<Member>
    requires { HasLowerFirst (member_in mode slot) }
    ensures { result ≡ Some (member_in mode slot) }
{
    match mode {
        Mode::Vertex => Some(Member::Vertex(VertexId(slot.0))),
        Mode::Edge => Edge::of(VertexId(slot.0), VertexId(slot.1)).map(Member::Edge),
    }
}

/// The place of the first of the ascending slots that is above `slot`, or `None` where `slot` is there.
fn place_of(slots: &[Slot], slot: Slot) -> Option<usize>
    ensures { result ≡ place_from 0 slots.now slot }
{
    for (place, other) in slots.iter().enumerate() {
        match slot.cmp(other) {
            Ordering::Less => return Some(place),
            Ordering::Equal => return None,
            Ordering::Greater => {}
        }
    }
    Some(slots.len())
}

/// Moves the slots from `place` to `len` up by one, and puts `slot` there.
fn put_slot(slots: &mut [Slot], len: usize, place: usize, slot: Slot)
    requires place { place ≤ len }
    requires room { len < length slots.old }
    ensures { slots.new ≡ insert (take len slots.old) place slot ++ drop (len + 1) slots.old }
{
    slots.copy_within(place..len, place + 1);
    slots[place] = slot;
}
