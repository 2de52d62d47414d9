//! Laws about the definitions: each is the contract of a function that does nothing.

ghost use Rattle.std.specs.Prelude.{◌↔◌, ◌&&◌, ℕ, IsTrue, List};
ghost use Rattle.std.specs.Cmp.Lexicographic.{slice_cmp};
ghost use Rattle.std.specs.List.Sorted.{IsStrictlySortedBy};
ghost use Rattle.std.specs.Ordering.{nat_cmp};
ghost use Rattle.graph_types.specs.meaning.Graph.{Graph, pair_cmp};
ghost use Rattle.graph_types.specs.meaning.Piece.{member_cmp};
ghost use Rattle.graph_types.specs.declared.member.Member.{Member};
ghost use Rattle.mining_model.specs.meaning.Changes.{added_pieces, removed_pieces, IsOfFirstAlone};
ghost use Rattle.mining_model.specs.meaning.Connected.{is_connected, IsConnected};
ghost use Rattle.mining_model.specs.meaning.NetChange.{changed_edges, changed_vertices, edge_differs, ends_are_same, vertex_differs};
ghost use Rattle.shared_lemmas.specs.meaning.Membership.{IsIn};
ghost use Rattle.mining_model.specs.meaning.Embeddings.{Pattern, embeddings, IsEmbedding};

/// Connected by splits is connected by sides.
pub fn connected_by_sides()
    ensures { (g : Graph) → IsTrue (is_connected g) ↔ IsConnected g }
{}

/// The embeddings of a graph stand in ascending order, and so each of them stands there once.
pub fn embeddings_ascend()
    ensures { (pattern : Pattern) (g : Graph) →
        IsStrictlySortedBy (slice_cmp member_cmp) (embeddings pattern g) }
{}

/// Which pieces are listed: as embeddings of a graph, as taken away by a step from one graph to another,
/// and as brought by it.
pub fn membership()
    ensures embedded { (pattern : Pattern) (g : Graph) (members : List Member) →
        IsIn members (embeddings pattern g) ↔ IsEmbedding pattern g members }
    ensures removed { (pattern : Pattern) (before now : Graph) (members : List Member) →
        IsIn members (removed_pieces pattern before now) ↔ IsOfFirstAlone pattern before now members }
    ensures added { (pattern : Pattern) (before now : Graph) (members : List Member) →
        IsIn members (added_pieces pattern before now) ↔ IsOfFirstAlone pattern now before members }
{}

/// What a net change has: each vertex that differs, and each edge that differs between ends that don't,
/// in ascending order.
pub fn net_changes()
    ensures vertices { (before after : Graph) (v : ℕ) →
        IsIn v (changed_vertices before after) ↔ IsTrue (vertex_differs before after v) }
    ensures edges { (before after : Graph) (e : ℕ × ℕ) →
        IsIn e (changed_edges before after) ↔ IsTrue (edge_differs before after e && ends_are_same before after e) }
    ensures vertices_ascend { (before after : Graph) →
        IsStrictlySortedBy nat_cmp (changed_vertices before after) }
    ensures edges_ascend { (before after : Graph) →
        IsStrictlySortedBy pair_cmp (changed_edges before after) }
{}
