//! The laws of the search: each is the contract of a function that does nothing.

ghost use Rattle.std.specs.Prelude.{◌≡◌, ◌↔◌, ◌⊎◌, ◌≤◌, ◌&&◌, All, IsTrue, List, length};
ghost use Rattle.std.specs.List.Sorted.{IsStrictlySortedBy};
ghost use Rattle.graph_types.specs.declared.ids.Mode.{Mode};
ghost use Rattle.graph_types.specs.declared.member.Member.{Member};
ghost use Rattle.graph_types.specs.meaning.Graph.{Graph};
ghost use Rattle.graph_types.specs.meaning.Piece.{IsOfMode, member_cmp};
ghost use Rattle.graph_types.specs.meaning.Simple.{IsSimple};
ghost use Rattle.mining_model.specs.meaning.Changes.{IsOfFirstAlone};
ghost use Rattle.mining_model.specs.meaning.Embeddings.{is_embedding, IsEmbedding, Pattern};
ghost use Rattle.mining_model.specs.meaning.Picture.{picture};
ghost use Rattle.search_model.specs.meaning.Finds.{embedded_picture};
ghost use Rattle.search_model.specs.meaning.Joined.{AreLinked, has_piece};
ghost use Rattle.search_model.specs.meaning.Near.{FilterHoldsOfKept, FilterPassesToParts, Target, is_live};
ghost use Rattle.search_model.specs.meaning.Seeds.{holds_a_seed, holds_seed};
ghost use Rattle.shared_lemmas.specs.meaning.Membership.{IsIn};

/// An embedding that is there in one of two graphs alone holds a seed. So whoever looks at all pieces that hold one
/// misses none that goes or comes.
pub fn changed_embeddings_hold_seeds()
    ensures gone { (pattern : Pattern) (before after : Graph) (piece : List Member) →
        IsOfFirstAlone pattern before after piece → IsTrue (holds_a_seed pattern.mode before after piece) }
    ensures come { (pattern : Pattern) (before after : Graph) (piece : List Member) →
        IsOfFirstAlone pattern after before piece → IsTrue (holds_a_seed pattern.mode before after piece) }
{}

/// An embedding hangs together in the joined graphs.
pub fn embeddings_are_linked()
    ensures before { (pattern : Pattern) (before after : Graph) (piece : List Member) → IsSimple before →
        IsEmbedding pattern before piece → AreLinked before after piece }
    ensures after { (pattern : Pattern) (before after : Graph) (piece : List Member) → IsSimple after →
        IsEmbedding pattern after piece → AreLinked before after piece }
{}

/// A part of a live piece is live, where the filter passes to parts. So what isn't live is part of no live piece.
pub fn live_passes_to_parts()
    ensures { (target : Target) (before after : Graph) (members some : List Member) → FilterPassesToParts target →
        All (IsOfMode target.pattern.mode) some → ((m : Member) → IsIn m some → IsIn m members) →
        IsTrue (is_live target before after members) → IsTrue (is_live target before after some) }
{}

/// What is an embedding before or after is live, where the filter holds of all that the pattern keeps.
pub fn finds_are_live()
    ensures { (target : Target) (before after : Graph) (piece : List Member) → FilterHoldsOfKept target →
        IsEmbedding target.pattern before piece ⊎ IsEmbedding target.pattern after piece →
        IsTrue (is_live target before after piece) }
{}

/// An ascending piece of the pattern's mode and size is an embedding exactly where the graph has it, its picture
/// there is connected, and the pattern keeps that.
pub fn embeddings_by_test()
    ensures { (pattern : Pattern) (g : Graph) (piece : List Member) → IsStrictlySortedBy member_cmp piece →
        All (IsOfMode pattern.mode) piece → 1 ≤ length piece → length piece ≤ pattern.size →
        IsTrue (has_piece g piece && is_embedding pattern g piece) ↔ IsEmbedding pattern g piece }
{}

/// What is asked of a piece depends on which members it has, and not on their order.
pub fn order_does_not_count()
    ensures presence { (xs ys : List Member) (g : Graph) → ((m : Member) → IsIn m xs ↔ IsIn m ys) →
        has_piece g xs ≡ has_piece g ys }
    ensures picture { (xs ys : List Member) (g : Graph) → ((m : Member) → IsIn m xs ↔ IsIn m ys) →
        picture g xs ≡ picture g ys }
    ensures embedded { (pattern : Pattern) (xs ys : List Member) (g : Graph) → ((m : Member) → IsIn m xs ↔ IsIn m ys) →
        is_embedding pattern g xs ≡ is_embedding pattern g ys }
    ensures embedded_picture { (pattern : Pattern) (xs ys : List Member) (g : Graph) → ((m : Member) → IsIn m xs ↔ IsIn m ys) →
        embedded_picture pattern g xs ≡ embedded_picture pattern g ys }
    ensures live { (target : Target) (xs ys : List Member) (before after : Graph) → ((m : Member) → IsIn m xs ↔ IsIn m ys) →
        is_live target before after xs ≡ is_live target before after ys }
    ensures seed { (xs ys seed : List Member) → ((m : Member) → IsIn m xs ↔ IsIn m ys) →
        holds_seed xs seed ≡ holds_seed ys seed }
    ensures some_seed { (kind : Mode) (xs ys : List Member) (before after : Graph) → ((m : Member) → IsIn m xs ↔ IsIn m ys) →
        holds_a_seed kind before after xs ≡ holds_a_seed kind before after ys }
{}
