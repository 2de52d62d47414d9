ghost use Rattle.std.specs.Prelude.{◌≡◌, ℕ, IsOk, OnOk, OnErr};
ghost use Rattle.graph_types.specs.meaning.Graph.{edge_between, with_edge, without_edge};
ghost use Rattle.mining_model.specs.meaning.Step.{graph_after, step as graph_step};
ghost use Rattle.update_rules.specs.calls.Steps.{Admits, AreEnds, Joins, Steps};

use graph_types::{Edge, LabelId, NoMemory, Refusal, Snapshot, Update, VertexId};

/// Why an update was not made.
#[derive(Clone, Copy, Debug, PartialEq, Eq)]
pub enum StepFault {
    /// The snapshot refuses it.
    Refused(Refusal),
    /// An allocation was refused.
    NoMemory,
}

impl From<NoMemory> for StepFault {
    ghost use Rattle.update_rules.specs.declared.steps.StepFault.TheVariants as fault;

    ghost from_gives = { λ _ e. e ≡ fault.NoMemory };

    fn from(_error: NoMemory) -> StepFault {
        StepFault::NoMemory
    }
}

/// Makes the update, in a few look-ups and one change; to remove a vertex takes a look-up more for each
/// of its edges. A label may be given again. A refused update changes nothing.
pub fn step(graph: &mut Snapshot, update: &Update) -> Result<(), StepFault>
    ensures { Steps graph.old update.now result graph.new }
{
    if let Err(why) = admit(graph, update) {
        return Err(StepFault::Refused(why));
    }
    apply(graph, update)?;
    Ok(())
}

/// Whether the snapshot accepts the update, and else why not, in a few look-ups. It takes no memory.
pub fn admit(graph: &Snapshot, update: &Update) -> Result<(), Refusal>
    ensures { Admits graph.now update.now result }
{
    match *update {
        Update::AddVertex { id, .. } => admit_new_vertex(graph, id),
        Update::RemoveVertex { id } => admit_known_vertex(graph, id),
        Update::LabelVertex { id, .. } => admit_known_vertex(graph, id),
        Update::AddEdge { from, to, .. } => admit_new_edge(graph, from, to),
        Update::RemoveEdge { from, to } => admit_known_edge(graph, from, to),
        Update::LabelEdge { from, to, .. } => admit_known_edge(graph, from, to),
    }
}

/// Makes an update that the snapshot accepts. Out of memory changes nothing.
pub fn apply(graph: &mut Snapshot, update: &Update) -> Result<(), NoMemory>
    requires { IsOk (graph_step graph.old update.now) }
    ensures ok { OnOk result (graph.new ≡ graph_after graph.old update.now) }
    ensures err { OnErr result (graph.new ≡ graph.old) }
{
    match *update {
        Update::AddVertex { id, label } => graph.put_vertex(id, label),
        Update::RemoveVertex { id } => {
            graph.take_vertex(id);
            Ok(())
        }
        Update::LabelVertex { id, label } => graph.put_vertex(id, label),
        Update::AddEdge { from, to, label } => put_edge(graph, from, to, label),
        Update::RemoveEdge { from, to } => {
            take_edge(graph, from, to);
            Ok(())
        }
        Update::LabelEdge { from, to, label } => put_edge(graph, from, to, label),
    }
}

fn admit_new_vertex(graph: &Snapshot, id: VertexId) -> Result<(), Refusal>
    ensures { (label : ℕ) → Admits graph.now (Update.AddVertex id label) result }
{
    if graph.label(id).is_some() {
        return Err(Refusal::VertexExists);
    }
    Ok(())
}

fn admit_known_vertex(graph: &Snapshot, id: VertexId) -> Result<(), Refusal>
    ensures remove { Admits graph.now (Update.RemoveVertex id) result }
    ensures label { (label : ℕ) → Admits graph.now (Update.LabelVertex id label) result }
{
    if graph.label(id).is_none() {
        return Err(Refusal::NoVertex(id));
    }
    Ok(())
}

fn admit_new_edge(graph: &Snapshot, from: VertexId, to: VertexId) -> Result<(), Refusal>
    ensures { (label : ℕ) → Admits graph.now (Update.AddEdge from to label) result }
{
    let edge = joining(graph, from, to)?;
    if graph.edge_label(edge).is_some() {
        return Err(Refusal::EdgeExists);
    }
    Ok(())
}

fn admit_known_edge(graph: &Snapshot, from: VertexId, to: VertexId) -> Result<(), Refusal>
    ensures remove { Admits graph.now (Update.RemoveEdge from to) result }
    ensures label { (label : ℕ) → Admits graph.now (Update.LabelEdge from to label) result }
{
    let edge = joining(graph, from, to)?;
    if graph.edge_label(edge).is_none() {
        return Err(Refusal::NoEdge);
    }
    Ok(())
}

/// The edge between two vertices that are there.
fn joining(graph: &Snapshot, from: VertexId, to: VertexId) -> Result<Edge, Refusal>
    ensures { Joins graph.now from to result }
{
    let Some(edge) = Edge::of(from, to) else {
        return Err(Refusal::Loop);
    };
    if graph.label(from).is_none() {
        return Err(Refusal::NoVertex(from));
    }
    if graph.label(to).is_none() {
        return Err(Refusal::NoVertex(to));
    }
    Ok(edge)
}

fn put_edge(
    graph: &mut Snapshot,
    from: VertexId,
    to: VertexId,
    label: LabelId,
) -> Result<(), NoMemory>
    requires { AreEnds graph.old from to }
    ensures ok { OnOk result (graph.new ≡ with_edge graph.old (edge_between from to) label) }
    ensures err { OnErr result (graph.new ≡ graph.old) }
{
    let Some(edge) = Edge::of(from, to) else {
        unreachable!()
    };
    graph.put_edge(edge, label)
}

fn take_edge(graph: &mut Snapshot, from: VertexId, to: VertexId)
    requires { AreEnds graph.old from to }
    ensures { graph.new ≡ without_edge graph.old (edge_between from to) }
{
    let Some(edge) = Edge::of(from, to) else {
        unreachable!()
    };
    graph.take_edge(edge);
}
