//! Laws about what terms count, and where patterns are looked for: each is the contract of a function that does nothing.

ghost use Rattle.std.specs.Prelude.{◌≡◌, ◌+◌, ◌-◌, ◌*◌, ◌/◌, ℕ, IsTrue, List, length};
ghost use Rattle.graph_types.specs.meaning.Graph.{Graph, edges_of, empty_graph, vertices_of};
ghost use Rattle.graph_types.specs.meaning.Simple.{IsSimple};
ghost use Rattle.conditions.specs.declared.condition.Term.{Term};
ghost use Rattle.conditions.specs.declared.condition.Term.TheVariants.{Missing};
ghost use Rattle.conditions.specs.meaning.Counts.{term_count};
ghost use Rattle.conditions.specs.meaning.Fits.{IsOrderOf, are_all_alike, numbered, orders};
ghost use Rattle.conditions.specs.meaning.Written.{is_pattern_within};
ghost use Rattle.conditions.specs.declared.pattern.Pattern.{Pattern};
ghost use Rattle.shared_lemmas.specs.meaning.Membership.{IsDistinct, IsIn};

/// Where each edge has its ends, the lower one first, the pairs without an edge are those that the edges
/// leave of all pairs.
pub fn missing_is_what_edges_leave()
    ensures { (g : Graph) → IsSimple g →
        (let n = length (vertices_of g) in
        term_count Missing g + length (edges_of g) ≡ n * (n - 1) / 2) }
{}

/// In a graph that has nothing each term counts 0.
pub fn terms_of_nothing()
    ensures { (term : Term) → term_count term empty_graph ≡ 0 }
{}

/// The orders of the items of a list are all lists that have as many items, each once, and all from the list.
pub fn orders_have_all_items()
    ensures each { (xs vs : List ℕ) → IsDistinct xs → IsIn vs (orders xs) → IsOrderOf xs vs }
    ensures all { (xs vs : List ℕ) → IsDistinct xs → IsOrderOf xs vs → IsIn vs (orders xs) }
{}

/// Where all vertices of a simple graph stand in an order in which each two are joined as the pattern's are, the graph
/// has as many edges as the pattern.
pub fn joined_alike_has_as_many_edges()
    ensures { (s : Pattern) (g : Graph) (vs : List ℕ) → IsTrue (is_pattern_within s) → IsSimple g →
        IsIn vs (orders (vertices_of g)) → length vs ≡ length s.labels → IsTrue (are_all_alike s g (numbered 1 vs)) →
        length (edges_of g) ≡ length s.edges }
{}
