use crate::case::{CaseFault, field, shards};
use crate::showing::show_difference;
use graph_types::{Snapshot, Update};
use line_fields::Names;
use std::alloc::Global;
use std::fmt::Write;
use update_reader::{Item, UpdateFault, read_line};
use update_rules::{StepFault, admit, net_of, parts, step};

/// `graph`: takes all out.
pub fn clear(
    alloc: Global,
    names: &mut Names,
    graph: &mut Snapshot,
    answer: &mut String,
) -> Result<(), CaseFault> {
    *names = Names::new(alloc)?;
    *graph = Snapshot::new(alloc);
    answer.push_str("empty")?;
    Ok(())
}

/// `make UPDATE`
pub fn make(
    alloc: Global,
    names: &mut Names,
    graph: &mut Snapshot,
    text: &str,
    answer: &mut String,
) -> Result<(), CaseFault> {
    let update = read_update(alloc, names, text)?;
    match step(graph, &update) {
        Ok(()) => answer.push_str("made")?,
        Err(StepFault::Refused(why)) => write!(answer, "{why:?}")?,
        Err(StepFault::NoMemory) => return Err(CaseFault::NoMemory),
    }
    Ok(())
}

/// `changes SHARDS UPDATE`: the net change of an update, and its parts. It isn't made.
pub fn changes(
    alloc: Global,
    names: &mut Names,
    graph: &Snapshot,
    text: &str,
    answer: &mut String,
) -> Result<(), CaseFault> {
    let (word, text) = field(text);
    let shards = shards(word)?;
    let update = read_update(alloc, names, text)?;
    if let Err(why) = admit(graph, &update) {
        write!(answer, "{why:?}")?;
        return Ok(());
    }
    let net = net_of(alloc, graph, &update)?;
    let parts = parts(alloc, graph, &update, shards)?;
    show_difference(&net, &parts, answer)
}

/// The update of a line.
pub fn read_update(alloc: Global, names: &mut Names, text: &str) -> Result<Update, CaseFault> {
    match read_line(alloc, text.as_bytes(), names) {
        Ok(Item::Update(update)) => Ok(update),
        Err(UpdateFault::NoMemory) => Err(CaseFault::NoMemory),
        _ => Err(CaseFault::BadCase),
    }
}
