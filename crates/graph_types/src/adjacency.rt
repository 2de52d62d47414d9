ghost use Rattle.std.specs.Prelude.{◌≡◌, ◌++◌, ℕ, false, IsTrue, IfSome, OnOk, OnErr, IfOk, is_some, map as mapped, filter};
ghost use Rattle.std.specs.FinMap as map;
ghost use Rattle.std.specs.Ordering.{nat_cmp};
ghost use Rattle.graph_types.specs.meaning.Graph.{empty_graph, has_vertex, has_edge, with_vertex, with_edge, without_edge};
ghost use Rattle.graph_types.specs.storage.Adjacency.{Lists, without_row, without_edges_to, goes_up};
ghost use Rattle.graph_types.specs.storage.Seen.{seen_at};

use crate::neighbours::Neighbours;
use crate::{Edge, EdgeList, LabelId, NoMemory, VertexId, VertexList};
use id_map::IdMap;
use std::alloc::Global;
use std::marker::Model;

/// What is known of a vertex: its label, and where its edges lead.
#[derive(Debug, Drop)]
pub(crate) struct Vertex {
    pub label: LabelId,
    pub near: Neighbours<LabelId>,
}

/// A directed labelled graph, as one map of its vertices, each with the edges from it.
#[derive(Debug, Drop)]
pub(crate) struct Adjacency {
    rows: IdMap<Vertex>,
    alloc: Global,
}

impl Model for Adjacency {
    ghost use Rattle.graph_types.specs.meaning.Graph.{Graph, graph_code};
    ghost use Rattle.graph_types.specs.storage.Adjacency.{graph_of_rows};

    ghost Value = { Graph };

    ghost coded = { graph_code };

    ghost view = { λ a. graph_of_rows a.rows };
}

impl Adjacency {
    /// The graph that has nothing. It takes its memory from `alloc`, and none yet.
    pub fn new(alloc: Global) -> Adjacency
        ensures { result ≡ empty_graph }
    {
        Adjacency {
            rows: IdMap::new(alloc),
            alloc,
        }
    }

    /// What is known of a vertex.
    pub fn vertex(&self, v: VertexId) -> Option<&Vertex>
        ensures label { (seen_at result).label ≡ map.get self.now.labels v }
        ensures near { (w : ℕ) → map.get (seen_at result).near w ≡ map.get self.now.edges (v, w) }
    {
        self.rows.get(v.0)
    }

    /// The label of a vertex.
    pub fn label(&self, v: VertexId) -> Option<LabelId>
        ensures { result ≡ map.get self.now.labels v }
    {
        match self.rows.get(v.0) {
            Some(vertex) => Some(vertex.label),
            None => None,
        }
    }

    /// The label of the edge from one vertex to another.
    pub fn edge_label(&self, from: VertexId, to: VertexId) -> Option<LabelId>
        ensures { result ≡ map.get self.now.edges (from, to) }
    {
        match self.rows.get(from.0) {
            Some(vertex) => vertex.near.get(to).copied(),
            None => None,
        }
    }

    /// Gives a vertex a label, in place of the one that it had, if it was there.
    pub fn put_vertex(&mut self, v: VertexId, label: LabelId) -> Result<(), NoMemory>
        ensures ok { OnOk result (self.new ≡ with_vertex self.old v label) }
        ensures err { OnErr result (self.new ≡ self.old) }
    {
        if let Some(vertex) = self.rows.get_mut(v.0) {
            vertex.label = label;
            return Ok(());
        }
        let near = Neighbours::new(self.alloc);
        self.rows.insert(v.0, Vertex { label, near })?;
        Ok(())
    }

    /// Gives the edge from one vertex to another a label. Only a new edge takes memory.
    pub fn put_edge(&mut self, from: VertexId, to: VertexId, label: LabelId) -> Result<(), NoMemory>
        requires { IsTrue (has_vertex self.old from) }
        ensures ok { OnOk result (self.new ≡ with_edge self.old (from, to) label) }
        ensures err { OnErr result (self.new ≡ self.old) }
        ensures was_new { OnErr result (has_edge self.old (from, to) ≡ false) }
    {
        let Some(vertex) = self.rows.get_mut(from.0) else {
            unreachable!()
        };
        vertex.near.put(to, label)
    }

    /// Takes the edge from one vertex to another out, if it is there.
    pub fn take_edge(&mut self, from: VertexId, to: VertexId)
        ensures { self.new ≡ without_edge self.old (from, to) }
    {
        let Some(vertex) = self.rows.get_mut(from.0) else {
            return;
        };
        vertex.near.take(to);
    }

    /// Takes a vertex out with the edges from it, if it is there, and answers where these led.
    pub fn take_vertex(&mut self, v: VertexId) -> Neighbours<LabelId>
        ensures rest { self.new ≡ without_row self.old v }
        ensures taken { (w : ℕ) → map.get result w ≡ map.get self.old.edges (v, w) }
    {
        let Some(vertex) = self.rows.remove(v.0) else {
            return Neighbours::new(self.alloc);
        };
        vertex.near
    }

    /// Takes out the edges to a vertex from each of the sources.
    pub fn take_edges_to(&mut self, mut sources: Neighbours<LabelId>, to: VertexId)
        ensures { self.new ≡ without_edges_to self.old sources to }
    {
        while let Some((from, _)) = sources.pop() {
            self.take_edge(from, to);
        }
    }

    /// The vertices, ascending, in a new list.
    pub fn vertices(&self, alloc: Global) -> Result<VertexList, NoMemory>
        ensures { IfOk result (λ vs. vs ≡ map.keys self.now.labels) }
    {
        let mut vertices = VertexList::new(alloc);
        for (v, _) in &self.rows {
            vertices.push(VertexId(v))?;
        }
        Ok(vertices)
    }

    /// The edges to the higher of their ends, ascending, in a new list.
    pub fn edges_up(&self, alloc: Global) -> Result<EdgeList, NoMemory>
        ensures { IfOk result (λ es. es ≡ filter goes_up (map.keys self.now.edges)) }
    {
        let mut edges = EdgeList::new(alloc);
        for (v, vertex) in &self.rows {
            push_edges_up(VertexId(v), &vertex.near, &mut edges)?;
        }
        Ok(edges)
    }

    /// Where the edges from a vertex lead, each with its label, or `None` where the vertex isn't there.
    pub fn neighbours(&self, v: VertexId) -> Option<&Neighbours<LabelId>>
        ensures there { is_some result ≡ has_vertex self.now v }
        ensures labels { IfSome result (λ near. (w : ℕ) → map.get near.now w ≡ map.get self.now.edges (v, w)) }
    {
        match self.rows.get(v.0) {
            Some(vertex) => Some(&vertex.near),
            None => None,
        }
    }

    /// Where the edges from a vertex lead, ascending, in a new list.
    pub fn near(&self, alloc: Global, v: VertexId) -> Result<VertexList, NoMemory>
        ensures { IfOk result (λ ws. Lists nat_cmp (λ w. has_edge self.now (v, w)) ws) }
    {
        match self.rows.get(v.0) {
            Some(vertex) => list(alloc, &vertex.near),
            None => Ok(VertexList::new(alloc)),
        }
    }
}

/// Puts the edges from a vertex to its higher neighbours at the end of a list.
fn push_edges_up(
    from: VertexId,
    near: &Neighbours<LabelId>,
    edges: &mut EdgeList,
) -> Result<(), NoMemory>
    ensures { OnOk result (edges.new ≡ edges.old ++ filter goes_up (mapped (λ to. (from, to)) (map.keys near.now))) }
{
    for (to, _) in near {
        if from < to {
            if let Some(edge) = Edge::of(from, to) {
                edges.push(edge)?;
            }
        }
    }
    Ok(())
}

/// The neighbours, ascending, in a new list.
fn list(alloc: Global, near: &Neighbours<LabelId>) -> Result<VertexList, NoMemory>
    ensures { IfOk result (λ vs. vs ≡ map.keys near.now) }
{
    let mut vertices = VertexList::new(alloc);
    for (to, _) in near {
        vertices.push(to)?;
    }
    Ok(vertices)
}
