ghost use Rattle.std.specs.Prelude.{◌≡◌, ◌≤◌, [], length};

use graph_types::Piece;
use picture::{Catch, CatchStop, Picture};
use std::alloc::Global;

/// A piece, and in which of the two graphs it is an embedding.
#[derive(Clone, Copy, Debug, PartialEq, Eq)]
pub struct Find {
    pub piece: Piece,
    pub was: bool,
    pub is: bool,
}

/// Takes all finds, up to a number.
#[derive(Debug, Drop)]
pub struct FindCatch {
    room: u32,
    finds: Vec<Find>,
    ghost few: { length finds.items ≤ room },
}

impl FindCatch {
    /// A catch with room for so many finds.
    pub fn new(alloc: Global, room: u32) -> FindCatch {
        FindCatch {
            room,
            finds: Vec::new(alloc),
        }
    }

    /// The finds in ascending order of their pieces.
    pub fn into_sorted(self) -> Vec<Find> {
        let mut finds = self.finds;
        finds.sort_unstable_by_key(|find| find.piece);
        finds
    }
}

impl Catch for FindCatch {
    ghost use Rattle.delta_tables.specs.meaning.Finds.{find_note};

    type Note = Find;

    ghost note = { find_note };

    ghost notes = { λ c. c.finds.items };

    ghost room = { λ c. c.room };

    fn found(
        &mut self,
        piece: &Piece,
        before: Option<&Picture>,
        after: Option<&Picture>,
    ) -> Result<(), CatchStop> {
        if self.finds.len() == self.room as usize {
            return Err(CatchStop::Full);
        }
        let find = Find {
            piece: *piece,
            was: before.is_some(),
            is: after.is_some(),
        };
        match self.finds.push(find) {
            Ok(()) => Ok(()),
            Err(_) => Err(CatchStop::NoMemory),
        }
    }
}
