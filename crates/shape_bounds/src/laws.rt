//! What the numbers of vertices and edges say of a graph: each law is the contract of a function that does nothing.

ghost use Rattle.std.specs.Prelude.{ℕ, ◌≡◌, ◌≤◌, ◌↔◌, IsTrue, false, length, not};
ghost use Rattle.graph_types.specs.meaning.Graph.{Graph, edges_of, vertices_of};
ghost use Rattle.graph_types.specs.meaning.Simple.{IsSimple};
ghost use Rattle.conditions.specs.declared.condition.Cond.{Cond};
ghost use Rattle.conditions.specs.declared.condition.Op.{Op};
ghost use Rattle.conditions.specs.declared.condition.Term.{Term};
ghost use Rattle.conditions.specs.meaning.Conditions.{comparison_holds, holds};
ghost use Rattle.conditions.specs.meaning.Counts.{term_count};
ghost use Rattle.shape_bounds.specs.meaning.Bounds.{least_count, most_count};
ghost use Rattle.shape_bounds.specs.declared.outcome.Outcome.TheVariants as outcome;
ghost use Rattle.shape_bounds.specs.meaning.Outcomes.{ComparesWithin, comparison_may_hold, may_fail, may_hold, opposite, outcome_of};

/// What a condition says of a simple graph is one of the outcomes that its numbers of vertices and edges leave.
pub fn shapes_bound_conditions()
    ensures holds { (c : Cond) (g : Graph) → IsSimple g →
        IsTrue (holds c g) → IsTrue (may_hold c (length (vertices_of g)) (length (edges_of g))) }
    ensures fails { (c : Cond) (g : Graph) → IsSimple g →
        IsTrue (not (holds c g)) → IsTrue (may_fail c (length (vertices_of g)) (length (edges_of g))) }
{}

/// Where the numbers of vertices and edges tell what a condition is, it is that of each simple graph that has so many.
pub fn outcomes_tell()
    ensures holds { (c : Cond) (g : Graph) → IsSimple g →
        outcome_of c (length (vertices_of g)) (length (edges_of g)) ≡ outcome.Holds → IsTrue (holds c g) }
    ensures fails { (c : Cond) (g : Graph) → IsSimple g →
        outcome_of c (length (vertices_of g)) (length (edges_of g)) ≡ outcome.Fails → holds c g ≡ false }
{}

/// What a term counts in a simple graph lies between the bounds that its numbers of vertices and edges give.
pub fn shapes_bound_terms()
    ensures least { (term : Term) (g : Graph) → IsSimple g →
        least_count term (length (vertices_of g)) (length (edges_of g)) ≤ term_count term g }
    ensures most { (term : Term) (g : Graph) → IsSimple g →
        term_count term g ≤ most_count term (length (vertices_of g)) (length (edges_of g)) }
{}

/// A comparison may hold between two bounds exactly where it holds of some number between them, and fails exactly
/// where the opposite one holds.
pub fn bounds_decide_comparisons()
    ensures exact { (op : Op) (least most bound : ℕ) → least ≤ most →
        (IsTrue (comparison_may_hold op least most bound) ↔ ComparesWithin op least most bound) }
    ensures opposite { (op : Op) (n bound : ℕ) →
        comparison_holds (opposite op) n bound ≡ not (comparison_holds op n bound) }
{}
