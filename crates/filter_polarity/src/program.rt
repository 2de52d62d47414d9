ghost use Rattle.std.specs.Prelude.{◌≡◌, ◌≤◌, ◌||◌};
ghost use Rattle.graph_types.specs.meaning.Piece.{most_members};
ghost use Rattle.filter_polarity.specs.meaning.Program.{IsProgram};
ghost use Rattle.conditions.specs.meaning.Written.{IsWithinLimits};
ghost use Rattle.label_needs.specs.meaning.Needs.{needs_vertex_labels};
ghost use Rattle.shape_bounds.specs.meaning.Outcomes.{outcome_of};

use crate::falling_cond::Falling;
use conditions::Cond;
use graph_types::Mode;
use label_needs::needs_vertex_labels;
use shape_bounds::{Outcome, Outlook};
use std::marker::Model;

/// What to mine: pieces of one mode, up to a size, with a filter that every picture on the way has to pass
/// and a condition that the pieces to be told have to match.
///
/// It keeps what the numbers of vertices and edges alone say of both, and whether they need labels of vertices, so that a
/// search need not ask the conditions.
#[derive(Debug, Drop)]
pub struct Program {
    size: u8,
    filter: Falling,
    matching: Cond,
    filter_outlook: Outlook,
    matching_outlook: Outlook,
    needs_labels: bool,
}

impl Model for Program {
    ghost use Rattle.std.specs.Coded.{codes};
    ghost use Rattle.conditions.specs.contracts.condition.Cond as conditions;
    ghost use Rattle.filter_polarity.specs.meaning.Program.{ProgramValue};
    ghost use Rattle.filter_polarity.specs.storage.Foresight.{IsForeseen};

    ghost Value = { ProgramValue };

    ghost coded = { Prim.hlevel (codes, conditions.the_row.coded) };

    ghost view = { λ p. record {
      mode = p.filter.mode;
      size = p.size;
      filter = p.filter.cond;
      matching = p.matching;
    } };

    ghost invariant = { λ p. IsForeseen (record {
      mode = p.filter.mode;
      size = p.size;
      filter = p.filter.cond;
      matching = p.matching;
    }) p.filter_outlook p.matching_outlook p.needs_labels };
}

impl Program {
    /// The program that mines in the filter's mode. `size` counts members. Takes time linear in the size of the
    /// conditions, some hundred times.
    pub fn new(size: u8, filter: Falling, matching: Cond) -> Program
        requires some_member { 1 ≤ size }
        requires few_members { size ≤ most_members }
        requires filter_within { IsWithinLimits filter.cond }
        requires matching_within { IsWithinLimits matching }
        ensures { result ≡ record {
          mode = filter.mode;
          size = size;
          filter = filter.cond;
          matching = matching;
        } }
    {
        // By this call the filter tells that it falls.
        let filter_outlook = Outlook::of(filter.cond());
        let matching_outlook = Outlook::of(&matching);
        let needs_labels = either_needs_labels(filter.cond(), &matching);
        Program {
            size,
            filter,
            matching,
            filter_outlook,
            matching_outlook,
            needs_labels,
        }
    }

    /// What its pieces are made of.
    pub fn mode(&self) -> Mode
        ensures mode { result ≡ self.now.mode }
        ensures program { IsProgram self.now }
    {
        let _ = &self.size;
        self.filter.mode()
    }

    /// The most members of a piece.
    pub fn size(&self) -> u8
        ensures size { result ≡ self.now.size }
        ensures program { IsProgram self.now }
    {
        self.size
    }

    /// The condition that has to hold of every picture on the way to a piece.
    pub fn filter(&self) -> &Falling
        ensures filter { result.now ≡ record { mode = self.now.mode; cond = self.now.filter } }
        ensures program { IsProgram self.now }
    {
        &self.filter
    }

    /// The condition that has to hold of a piece that is told.
    pub fn matching(&self) -> &Cond
        ensures matching { result.now ≡ self.now.matching }
        ensures program { IsProgram self.now }
    {
        &self.matching
    }

    /// Whether the labels of vertices mean anything to one of its conditions.
    pub fn needs_vertex_labels(&self) -> bool
        ensures { result ≡ (needs_vertex_labels self.now.filter || needs_vertex_labels self.now.matching) }
    {
        self.needs_labels
    }

    /// What the filter is of each simple graph with so many vertices and edges, in constant time.
    pub fn filter_outcome(&self, vertices: usize, edges: usize) -> Outcome
        requires few_vertices { vertices ≤ 9 }
        requires few_edges { edges ≤ 36 }
        ensures { result ≡ outcome_of self.now.filter vertices edges }
    {
        self.filter_outlook.outcome(vertices, edges)
    }

    /// What the condition of the pieces that are told is of each simple graph with so many vertices and edges, in
    /// constant time.
    pub fn matching_outcome(&self, vertices: usize, edges: usize) -> Outcome
        requires few_vertices { vertices ≤ 9 }
        requires few_edges { edges ≤ 36 }
        ensures { result ≡ outcome_of self.now.matching vertices edges }
    {
        self.matching_outlook.outcome(vertices, edges)
    }
}

fn either_needs_labels(filter: &Cond, matching: &Cond) -> bool
    ensures { result ≡ (needs_vertex_labels filter.now || needs_vertex_labels matching.now) }
{
    needs_vertex_labels(filter) || needs_vertex_labels(matching)
}
