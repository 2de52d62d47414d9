ghost use Rattle.std.specs.Prelude.{◌≡◌, ℕ, IfOk};
ghost use Rattle.std.specs.List.Sorted.{IsStrictlySortedBy};
ghost use Rattle.std.specs.Ordering.{nat_cmp};
ghost use Rattle.graph_types.specs.calls.Views.{CountsHeld, CountsRead};
ghost use Rattle.graph_types.specs.declared.view.FetchStop.TheVariants as stop;
ghost use Rattle.graph_types.specs.meaning.Graph.{Graph};
ghost use Rattle.graph_types.specs.meaning.Neighbourhood.{kept_among, pair_in};

use crate::{NoMemory, Pair, VertexId};
use std::alloc::Global;

/// Why a view gave no answer.
#[derive(Clone, Copy, Debug, PartialEq, Eq)]
pub enum FetchStop {
    /// Out of memory.
    NoMemory,
    /// Another holder has what was to be read; with the word that said so.
    Held(u64),
}

impl From<NoMemory> for FetchStop {
    ghost from_gives = { λ _ e. e ≡ stop.NoMemory };

    fn from(_error: NoMemory) -> FetchStop {
        FetchStop::NoMemory
    }
}

/// Two graphs, of which a caller reads what it asks for and nothing else.
///
/// No call changes the graphs. What was read is counted, and so is how often something was found held.
pub trait GraphView {
    /// The graph before.
    ghost before: { Self → Graph };

    /// The graph after.
    ghost after: { Self → Graph };

    /// How many reads were made.
    ghost reads: { Self → ℕ };

    /// How often something was found held.
    ghost holds: { Self → ℕ };

    /// What a vertex has in both graphs. The answer takes memory in its number of neighbours.
    fn fetch(&mut self, alloc: Global, v: VertexId) -> Result<Pair, FetchStop>
        ensures pair { IfOk result (λ pair. pair ≡ pair_in (before self.old) (after self.old) v) }
        ensures reads { CountsRead (reads self.old) (reads self.new) result }
        ensures holds { CountsHeld (holds self.old) (holds self.new) result }
        ensures before { before self.new ≡ before self.old }
        ensures after { after self.new ≡ after self.old };

    /// What a vertex has in both graphs, with those of its neighbours alone that are among the vertices
    /// given: with none, its labels. The answer takes memory in the number of these neighbours.
    fn fetch_among(
        &mut self,
        alloc: Global,
        v: VertexId,
        among: &[VertexId],
    ) -> Result<Pair, FetchStop>
        requires { IsStrictlySortedBy nat_cmp among.now }
        ensures pair { IfOk result (λ pair. pair ≡ kept_among among.now (pair_in (before self.old) (after self.old) v)) }
        ensures reads { CountsRead (reads self.old) (reads self.new) result }
        ensures holds { CountsHeld (holds self.old) (holds self.new) result }
        ensures before { before self.new ≡ before self.old }
        ensures after { after self.new ≡ after self.old };

    /// About how many neighbours a vertex has. It is a hint, whose value nothing promises.
    fn size(&mut self, v: VertexId) -> Result<usize, FetchStop>
        ensures reads { reads self.new ≡ reads self.old }
        ensures holds { CountsHeld (holds self.old) (holds self.new) result }
        ensures before { before self.new ≡ before self.old }
        ensures after { after self.new ≡ after self.old };
}
