//! Tables of cases for the crates at the bottom. A line of standard input is a case: the word that names its table, and
//! what the calls are given. It is written with its answer. Blank lines, and those that begin with `#`, are written
//! alone.
#![tactic(auto)]

mod case;
mod commands;
mod ends;
mod fields;
mod gates;
mod graphs;
mod lines;
mod members;
mod pages;
mod programs;
mod text;
mod trials;
mod updates;

use case::{CaseFault, field};
use graphs::Graph;
use std::alloc::Global;
use std::io;
use std::sync::Wait;

fn answer<R: Wait>(
    rt: &R,
    alloc: Global,
    graph: &mut Graph,
    case: &str,
    answer: &mut String,
) -> Result<(), CaseFault> {
    let (table, text) = field(case);
    match table {
        "edge" => members::edge(text, answer),
        "piece" => members::piece(text, answer),
        "order" => members::order(text, answer),
        "gate" => gates::gate(rt, text, answer),
        "graph" => graph.clear(alloc, answer),
        "make" => graph.make(alloc, text, answer),
        "spread" => graph.spread(alloc, text, answer),
        "vertices" => graph.vertices(alloc, answer),
        "edges" => graph.edges(alloc, answer),
        "near" => graph.near(alloc, text, answer),
        "fetch" => graph.fetch(alloc, text, answer),
        "label" => graph.label(text, answer),
        "words" => fields::words(alloc, text, answer),
        "rest" => fields::rest(alloc, text, answer),
        "trim" => fields::trim(alloc, text, answer),
        "nothing" => fields::nothing(alloc, text, answer),
        "number" => fields::read(alloc, text, answer),
        "id" => fields::id(alloc, text, answer),
        "is-label" => fields::label(alloc, text, answer),
        "label-bytes" => fields::label_bytes(alloc, text, answer),
        "source" => ends::source(alloc, text, answer),
        "sink" => ends::sink(alloc, text, answer),
        "stream" => ends::stream(alloc, text, answer),
        "lines" => lines::lines(alloc, text, answer),
        "page" => pages::page(alloc, text, answer),
        "short" => pages::short_line(text, answer),
        "read" => updates::read(alloc, text, answer),
        "read-full" => updates::read_full(alloc, text, answer),
        "names" => updates::names(alloc, text, answer),
        "names-full" => updates::names_full(alloc, text, answer),
        "command" => commands::command(alloc, text, answer),
        "header" => programs::header(alloc, text, answer),
        "third" => programs::third(alloc, text, answer),
        "program" => programs::program(alloc, text, answer),
        "condition" => programs::condition(alloc, text, answer),
        "trial" => trials::trial(alloc, text, answer),
        _ => Err(CaseFault::BadCase),
    }
}

/// Writes a case with its answer.
fn show<R: Print + Wait>(rt: &R, alloc: Global, graph: &mut Graph, case: &str) -> io::Result<()> {
    let mut text = String::new(alloc);
    match answer(rt, alloc, graph, case, &mut text) {
        Ok(()) => println!(rt; "{case} -> {text}"),
        Err(CaseFault::BadCase) => println!(rt; "{case} is no case"),
        Err(CaseFault::NoMemory) => println!(rt; "{case} -> out of memory"),
    }
}

fn main(rt: HostRuntime) -> io::Result<()> {
    let Ok(mut graph) = Graph::new(rt.alloc()) else {
        return println!(rt; "out of memory");
    };
    for line in rt.lines(rt.alloc()) {
        let line = line?;
        let case = line.as_str();
        if case.is_empty() || case.starts_with('#') {
            println!(rt; "{case}")?;
        } else {
            show(&rt, rt.alloc(), &mut graph, case)?;
        }
    }
    Ok(())
}
