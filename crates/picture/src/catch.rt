ghost use Rattle.std.specs.Prelude.{◌≡◌, ◌||◌, ℕ, List, Option, IsTrue, is_some};
ghost use Rattle.graph_types.specs.meaning.Graph.{Graph};
ghost use Rattle.graph_types.specs.meaning.Piece.{PieceValue};
ghost use Rattle.picture.specs.calls.Catching.{TakesFind, drawn_in};

use crate::Picture;
use graph_types::Piece;

/// Why a find was not taken.
#[derive(Clone, Copy, Debug, PartialEq, Eq)]
pub enum CatchStop {
    /// There are as many notes as there is room for.
    Full,
    /// Out of memory.
    NoMemory,
}

/// What takes the finds of a search. A find is a piece with its picture before a change, its picture after it, or
/// both, and of each the catch keeps a note, or nothing.
pub trait Catch {
    /// What is kept of a find.
    type Note;

    /// What is kept of a find, by the graphs that its pictures draw. It depends on nothing else: neither on what was
    /// found before nor on the order in which a picture was drawn.
    ghost note: { PieceValue → Option Graph → Option Graph → Option Self.Note };

    /// The notes that were kept, in the order in which they came.
    ghost notes: { Self → List Self.Note };

    /// How many notes there is room for.
    ghost room: { Self → ℕ };

    /// Takes a find: keeps its note, if it has one.
    fn found(
        &mut self,
        piece: &Piece,
        before: Option<&Picture>,
        after: Option<&Picture>,
    ) -> Result<(), CatchStop>
        requires { IsTrue (is_some before || is_some after) }
        ensures notes { TakesFind (notes self.old) (room self.old) (note piece.now (drawn_in before.entry) (drawn_in after.entry)) result (notes self.new) }
        ensures room { room self.new ≡ room self.old };
}
