ghost use Rattle.std.specs.Prelude.{◌≡◌, ◌≢◌, ◌+◌, ◌<◌, ◌≤◌, ◌++◌, [], length, not, IfOk, OnOk};
ghost use Rattle.graph_types.specs.meaning.Graph.{HasEnds, edge_between, empty_graph, has_edge};
ghost use Rattle.trial_job.specs.meaning.TrialJob.{edge_line as line_of_edge, edge_lines, first_drawn, graph_of_vertices, label_name, next_state, second_drawn, states_end, toggled, trial_text, vertex_line as line_of_vertex, vertex_lines};
ghost use Rattle.trial_job.specs.calls.Standing.{HasVertices};

use crate::draws::Draws;
use graph_types::{Edge, LabelId, NoMemory, Snapshot, VertexId};
use job_io::{ByteList, ShortLine};
use std::alloc::Global;

/// It mines triangles.
const HEADER: &[u8] =
    b"mode vertex\nsize 3\nfilter true\nmatch vertices = 3 and edges = 3\nbegin\n";

/// The bytes of a trial's job: its header, an update for each of the vertices 1 to `vertices`, and `updates` updates
/// more. Each of these draws two vertices and puts in the edge between them, or takes it out where it stands.
///
/// Each update takes time logarithmic in the number of neighbours of its ends. The edges that stand are held meanwhile.
pub fn trial_job(
    alloc: Global,
    seed: u32,
    vertices: u32,
    updates: u32,
) -> Result<ByteList, NoMemory>
    requires seeded { seed < states_end }
    requires paired { 2 ≤ vertices }
    ensures { IfOk result (λ job. job ≡ trial_text seed vertices updates) }
{
    let mut job = ByteList::from_slice(alloc, HEADER)?;
    let mut graph = Snapshot::new(alloc);
    add_vertices(&mut job, &mut graph, vertices)?;
    let mut draws = Draws::new(seed);
    for _ in 0..updates {
        add_update(&mut job, &mut graph, &mut draws, vertices)?;
    }
    Ok(job)
}

/// Adds the updates that bring the vertices.
fn add_vertices(job: &mut ByteList, graph: &mut Snapshot, vertices: u32) -> Result<(), NoMemory>
    requires { graph.old ≡ empty_graph }
    ensures lines { OnOk result (job.new ≡ job.old ++ vertex_lines vertices) }
    ensures graph { OnOk result (graph.new ≡ graph_of_vertices vertices) }
{
    for others in 0..vertices {
        let v = others + 1;
        job.extend_from_slice(&vertex_line(v))?;
        graph.put_vertex(VertexId(v), LabelId(0))?;
    }
    Ok(())
}

/// The line that adds a vertex.
fn vertex_line(v: u32) -> ShortLine
    ensures { result ≡ line_of_vertex v }
{
    let mut line = ShortLine::new();
    line.push(b"+v ");
    line.push_number(u64::from(v));
    line.push(b" ");
    line.push(label(v));
    line.push(b"\n");
    line
}

/// The label of a vertex.
fn label(v: u32) -> &'static [u8]
    ensures name { result.now ≡ label_name v }
    ensures short { length result.now ≡ 1 }
{
    match v % 3 {
        0 => b"a",
        1 => b"b",
        _ => b"c",
    }
}

/// Adds an update of the edge between two vertices that are drawn.
fn add_update(
    job: &mut ByteList,
    graph: &mut Snapshot,
    draws: &mut Draws,
    vertices: u32,
) -> Result<(), NoMemory>
    requires paired { 2 ≤ vertices }
    requires there { HasVertices vertices graph.old }
    ensures line { OnOk result (job.new ≡ job.old ++
        line_of_edge (has_edge graph.old (edge_between (first_drawn vertices draws.old) (second_drawn vertices draws.old)))
        (first_drawn vertices draws.old) (second_drawn vertices draws.old)) }
    ensures graph { OnOk result (graph.new ≡
        toggled graph.old (edge_between (first_drawn vertices draws.old) (second_drawn vertices draws.old))) }
    ensures drawn { draws.new ≡ next_state (next_state draws.old) }
{
    let (from, to) = draws.pair(vertices);
    let stood = toggle(graph, from, to)?;
    job.extend_from_slice(&edge_line(stood, from, to))?;
    Ok(())
}

/// Takes the edge between two vertices out, or puts it in where it doesn't stand. Tells whether it stood.
fn toggle(graph: &mut Snapshot, from: u32, to: u32) -> Result<bool, NoMemory>
    requires different { from ≢ to }
    requires ends { HasEnds graph.old (edge_between from to) }
    ensures stood { IfOk result (λ stood. stood ≡ has_edge graph.old (edge_between from to)) }
    ensures toggled { OnOk result (graph.new ≡ toggled graph.old (edge_between from to)) }
{
    let edge = Edge::of(VertexId(from), VertexId(to)).unwrap();
    if graph.edge_label(edge).is_some() {
        graph.take_edge(edge);
        return Ok(true);
    }
    graph.put_edge(edge, LabelId(0))?;
    Ok(false)
}

/// The line that takes an edge out where it stood, and else puts it in.
fn edge_line(stood: bool, from: u32, to: u32) -> ShortLine
    ensures { result ≡ line_of_edge stood from to }
{
    let mut line = ShortLine::new();
    line.push(if stood { b"-e " } else { b"+e " });
    line.push_number(u64::from(from));
    line.push(b" ");
    line.push_number(u64::from(to));
    line.push(b"\n");
    line
}
