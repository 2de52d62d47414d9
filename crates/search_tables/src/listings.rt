//! Pieces of a graph that changes, as programs list them.

use crate::programs::read;
use graph_types::{NoMemory, Piece, PieceList, Snapshot};
use job_io::{CallList, MemorySink, Page};
use line_fields::Names;
use plain_miner::{embeddings, without};
use record_text::write_listing;
use std::alloc::Global;
use std::mem::replace;
use update_reader::{Item, UpdateFault, read_line};
use update_rules::{StepFault, step};

/// Makes the updates of a text, and tells how large the graph is then.
pub fn change(
    alloc: Global,
    graph: &mut Snapshot,
    names: &mut Names,
    text: &str,
) -> Result<String, NoMemory> {
    for line in text.split(';') {
        if !make(alloc, graph, names, line)? {
            return Ok(String::from_str(alloc, "refused")?);
        }
    }
    let vertices = graph.vertices(alloc)?.len();
    let edges = graph.edges(alloc)?.len();
    Ok(format!(in alloc; "{vertices} vertices {edges} edges")?)
}

/// Lists the pieces that a program finds.
pub fn list(
    alloc: Global,
    graph: &Snapshot,
    names: &mut Names,
    pieces: &mut PieceList,
    text: &str,
) -> Result<String, NoMemory> {
    let Ok(program) = read(alloc, names, text)? else {
        return Ok(String::from_str(alloc, "refused")?);
    };
    *pieces = embeddings(alloc, &program, graph)?;
    listed(alloc, pieces)
}

/// Lists the pieces that a program finds no more, and those that it finds now.
pub fn compare(
    alloc: Global,
    graph: &Snapshot,
    names: &mut Names,
    pieces: &mut PieceList,
    text: &str,
) -> Result<String, NoMemory> {
    let Ok(program) = read(alloc, names, text)? else {
        return Ok(String::from_str(alloc, "refused")?);
    };
    let before = replace(pieces, embeddings(alloc, &program, graph)?);
    let gone = difference(alloc, before.as_slice(), pieces.as_slice())?;
    let come = difference(alloc, pieces.as_slice(), before.as_slice())?;
    Ok(format!(in alloc; "gone [{gone}] come [{come}]")?)
}

/// Makes the update of a line, or answers that it is refused.
fn make(
    alloc: Global,
    graph: &mut Snapshot,
    names: &mut Names,
    line: &str,
) -> Result<bool, NoMemory> {
    match read_line(alloc, line.as_bytes(), names) {
        Ok(Item::Update(update)) => match step(graph, &update) {
            Ok(()) => Ok(true),
            Err(StepFault::NoMemory) => Err(NoMemory),
            Err(_) => Ok(false),
        },
        Err(UpdateFault::NoMemory) => Err(NoMemory),
        _ => Ok(false),
    }
}

fn difference(alloc: Global, pieces: &[Piece], others: &[Piece]) -> Result<String, NoMemory> {
    listed(alloc, &without(alloc, pieces, others)?)
}

/// Pieces as they are written, with `;` in place of each LF.
fn listed(alloc: Global, pieces: &PieceList) -> Result<String, NoMemory> {
    let mut sink = MemorySink::new(alloc, 10_000, 100, CallList::new(alloc))?;
    let mut page = Page::new();
    let outcome = match write_listing(&mut sink, &mut page, pieces) {
        Ok(()) => page.send(&mut sink),
        Err(fault) => Err(fault),
    };
    if pieces.is_empty() || outcome.is_err() {
        return Ok(String::from_str(alloc, if outcome.is_ok() { "none" } else { "too long" })?);
    }
    let text = str::from_utf8(sink.bytes()).unwrap_or("?");
    Ok(text.replace(alloc, '\n', ";")?)
}
