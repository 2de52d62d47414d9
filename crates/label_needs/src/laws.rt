//! What labels of vertices mean to conditions: each law is the contract of a function that does nothing.

ghost use Rattle.std.specs.Prelude.{◌≡◌, false};
ghost use Rattle.graph_types.specs.meaning.Graph.{Graph};
ghost use Rattle.conditions.specs.declared.condition.Cond.{Cond};
ghost use Rattle.conditions.specs.meaning.Conditions.{holds};
ghost use Rattle.label_needs.specs.meaning.Needs.{AreAlike, needs_vertex_labels};

/// A condition that needs no labels of vertices is the same of graphs that differ in these alone.
pub fn relabelled_alike()
    ensures { (c : Cond) (g h : Graph) → needs_vertex_labels c ≡ false → AreAlike g h → holds c g ≡ holds c h }
{}
