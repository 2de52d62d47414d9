//! Laws about the definitions: each is the contract of a function that does nothing.

ghost use Rattle.std.specs.Prelude.{◌≡◌, ◌+◌, ◌-◌, ◌*◌, ◌/◌, List, length, IsTrue};
ghost use Rattle.std.specs.List.{All};
ghost use Rattle.graph_types.specs.meaning.Graph.{Graph, edges_of, empty_graph, vertices_of};
ghost use Rattle.graph_types.specs.meaning.Piece.{IsOfMode};
ghost use Rattle.graph_types.specs.meaning.Simple.{IsSimple};
ghost use Rattle.graph_types.specs.declared.ids.Mode.{Mode};
ghost use Rattle.graph_types.specs.declared.member.Member.{Member};
ghost use Rattle.mining_model.specs.meaning.Picture.{picture};
ghost use Rattle.conditions.specs.declared.condition.Cond.{Cond};
ghost use Rattle.conditions.specs.declared.condition.Term.{Term};
ghost use Rattle.conditions.specs.declared.condition.Term.TheVariants.{Missing};
ghost use Rattle.conditions.specs.meaning.Counts.{term_count};
ghost use Rattle.conditions.specs.meaning.Conditions.{holds};
ghost use Rattle.filter_polarity.specs.meaning.Polarity.{is_falling, is_rising};
ghost use Rattle.shared_lemmas.specs.meaning.Membership.{IsIn};

/// A falling condition that holds of a picture holds of each part of it, connected or not, also of the
/// empty one.
pub fn falling_passes_to_parts()
    ensures { (kind : Mode) (c : Cond) (q : Graph) (members : List Member) →
        IsTrue (is_falling kind c) → All (IsOfMode kind) members →
        IsTrue (holds c q) → IsTrue (holds c (picture q members)) }
{}

/// A rising condition that holds of a part of a picture holds of the picture.
pub fn rising_passes_from_parts()
    ensures { (kind : Mode) (c : Cond) (q : Graph) (members : List Member) →
        IsTrue (is_rising kind c) → All (IsOfMode kind) members →
        IsTrue (holds c (picture q members)) → IsTrue (holds c q) }
{}

/// The picture that some of the members have in the picture of all is theirs in the whole graph.
pub fn picture_within_a_picture()
    ensures { (g : Graph) (members some : List Member) →
        ((m : Member) → IsIn m some → IsIn m members) →
        picture (picture g members) some ≡ picture g some }
{}

/// A falling condition that holds of the picture of some members holds of the picture of fewer.
pub fn falling_passes_to_fewer_members()
    ensures { (kind : Mode) (c : Cond) (g : Graph) (members some : List Member) →
        IsTrue (is_falling kind c) → All (IsOfMode kind) some →
        ((m : Member) → IsIn m some → IsIn m members) →
        IsTrue (holds c (picture g members)) → IsTrue (holds c (picture g some)) }
{}
