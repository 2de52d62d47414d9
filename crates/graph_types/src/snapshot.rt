ghost use Rattle.std.specs.Prelude.{◌≡◌, ℕ, IsSome, IfSome, IfOk, OnOk, OnErr, is_some};
ghost use Rattle.std.specs.FinMap as map;
ghost use Rattle.graph_types.specs.meaning.Graph.{empty_graph, with_vertex, with_edge, without_vertex, without_edge, has_vertex, HasEnds, label_between, neighbours};
ghost use Rattle.graph_types.specs.meaning.Neighbourhood.{neighbourhood_of};
ghost use Rattle.graph_types.specs.meaning.Simple.{IsSimple};
ghost use Rattle.graph_types.specs.storage.Seen.{seen_at};

use crate::adjacency::{Adjacency, Vertex};
use crate::{Edge, EdgeList, LabelId, Neighbours, NoMemory, VertexId, VertexList};
use std::alloc::Global;
use std::marker::Model;

/// A labelled graph at one moment, each of whose edges has both its ends.
///
/// It is a map of the vertices, each with its label and its neighbours: a few in a short list, more in an
/// ordered map of their own. Each edge stands at both its ends. The place of a vertex below 4,194,304
/// stands in a plain table, which takes 16 MB at most, that of any other in an ordered map. So no call but
/// `vertices` and `edges` goes through the graph, whatever ids come and in whatever order; nothing is
/// hashed. To find a vertex below 4,194,304 takes constant time; where a call is said to take time
/// logarithmic in the number of vertices, that is for the others.
#[derive(Debug, Drop)]
pub struct Snapshot {
    arcs: Adjacency,
}

impl Model for Snapshot {
    ghost use Rattle.graph_types.specs.storage.Adjacency.{IsUndirected, undirected_graph};
    ghost use Rattle.graph_types.specs.meaning.Graph.{Graph, graph_code};

    ghost Value = { Graph };

    ghost coded = { graph_code };

    ghost view = { λ s. undirected_graph s.arcs };

    ghost invariant = { λ s. IsUndirected s.arcs };
}

impl Snapshot {
    /// The graph that has nothing. It takes its memory from `alloc`, and none yet.
    pub fn new(alloc: Global) -> Snapshot
        ensures { result ≡ empty_graph }
    {
        Snapshot {
            arcs: Adjacency::new(alloc),
        }
    }

    /// What is known of a vertex, or `None` where it isn't there. Takes time logarithmic in the number of
    /// vertices.
    pub(crate) fn vertex(&self, v: VertexId) -> Option<&Vertex>
        ensures { seen_at result ≡ neighbourhood_of self.now v }
    {
        self.arcs.vertex(v)
    }

    /// Says of a snapshot what is true of each, and does nothing.
    pub fn simple(&self)
        ensures { IsSimple self.now }
    {
        let _arcs = &self.arcs;
    }

    /// The label of a vertex, or `None` where it isn't there. Takes time logarithmic in the number of
    /// vertices.
    pub fn label(&self, v: VertexId) -> Option<LabelId>
        ensures label { result ≡ map.get self.now.labels v }
        ensures simple { IsSimple self.now }
    {
        self.arcs.label(v)
    }

    /// The label of an edge, or `None` where it isn't there. Takes time logarithmic in the number of
    /// vertices and in the number of neighbours of its lower end.
    pub fn edge_label(&self, e: Edge) -> Option<LabelId>
        ensures label { result ≡ map.get self.now.edges e }
        ensures ends { IsSome result → HasEnds self.now e }
    {
        let (low, high) = (e.a(), e.b());
        self.arcs.edge_label(low, high)
    }

    /// Gives a vertex a label, in place of the one that it had, if it was there. Takes time logarithmic
    /// in the number of vertices.
    pub fn put_vertex(&mut self, v: VertexId, l: LabelId) -> Result<(), NoMemory>
        ensures ok { OnOk result (self.new ≡ with_vertex self.old v l) }
        ensures err { OnErr result (self.new ≡ self.old) }
    {
        self.arcs.put_vertex(v, l)?;
        Ok(())
    }

    /// Gives an edge a label, in place of the one that it had, if it was there. Takes time logarithmic
    /// in the number of vertices and in the number of neighbours of each end.
    pub fn put_edge(&mut self, e: Edge, l: LabelId) -> Result<(), NoMemory>
        requires { HasEnds self.old e }
        ensures ok { OnOk result (self.new ≡ with_edge self.old e l) }
        ensures err { OnErr result (self.new ≡ self.old) }
    {
        let (low, high) = (e.a(), e.b());
        self.arcs.put_edge(low, high, l)?;
        if let Err(error) = self.arcs.put_edge(high, low, l) {
            // Only a new edge takes memory, and to take its first half out again takes none.
            self.arcs.take_edge(low, high);
            return Err(error);
        }
        Ok(())
    }

    /// Takes a vertex out, and each edge that ends there, if the vertex is there. Takes a look-up for the
    /// vertex and one for each of its edges, each logarithmic as in `take_edge`, and no memory.
    pub fn take_vertex(&mut self, v: VertexId)
        ensures { self.new ≡ without_vertex self.old v }
    {
        let near = self.arcs.take_vertex(v);
        self.arcs.take_edges_to(near, v);
    }

    /// Takes an edge out, if it is there. Takes time logarithmic in the number of vertices and in the
    /// number of neighbours of each end, and no memory.
    pub fn take_edge(&mut self, e: Edge)
        ensures { self.new ≡ without_edge self.old e }
    {
        let (a, b) = (e.a(), e.b());
        self.arcs.take_edge(a, b);
        self.arcs.take_edge(b, a);
    }

    /// The vertices, ascending, in a new list. Takes time linear in the number of vertices, and in the
    /// greatest one below 4,194,304 that was ever there.
    pub fn vertices(&self, alloc: Global) -> Result<VertexList, NoMemory>
        ensures { IfOk result (λ vs. vs ≡ map.keys self.now.labels) }
    {
        self.arcs.vertices(alloc)
    }

    /// The edges, ascending by their lower ends and then by their higher ones, in a new list. Takes time
    /// linear in the number of edges and else as `vertices`.
    pub fn edges(&self, alloc: Global) -> Result<EdgeList, NoMemory>
        ensures { IfOk result (λ es. es ≡ map.keys self.now.edges) }
    {
        self.arcs.edges_up(alloc)
    }

    /// The vertices that an edge joins with `v`, each with the label of that edge, or `None` where `v`
    /// isn't there. Takes time logarithmic in the number of vertices, and no memory.
    pub fn neighbours(&self, v: VertexId) -> Option<&Neighbours<LabelId>>
        ensures there { is_some result ≡ has_vertex self.now v }
        ensures labels { IfSome result (λ near. (w : ℕ) → map.get near.now w ≡ label_between self.now v w) }
        ensures vertices { IfSome result (λ near. map.keys near.now ≡ neighbours self.now v) }
    {
        self.arcs.neighbours(v)
    }

    /// The vertices that an edge joins with `v`, ascending, in a new list. Takes time logarithmic in the
    /// number of vertices and linear in the length of the list.
    pub fn near(&self, alloc: Global, v: VertexId) -> Result<VertexList, NoMemory>
        ensures { IfOk result (λ near. near ≡ neighbours self.now v) }
    {
        self.arcs.near(alloc, v)
    }
}
