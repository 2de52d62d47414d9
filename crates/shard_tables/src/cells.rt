ghost use Rattle.std.specs.Prelude.{IfOk, OnOk};
ghost use Rattle.shard_tables.specs.calls.CellSteps.{CameBy};

use crate::case::{CaseFault, field, label, stamp, vertex};
use crate::showing::{separate, show_pair};
use crate::vertices::ascending_vertices;
use graph_types::Stamp;
use std::alloc::Global;
use version_cell::Cell;

/// `STEP / STEP ..`, in a new cell: `label TIMESTAMP LABEL` and `near TIMESTAMP VERTEX LABEL` change it, `fold TIMESTAMP`
/// folds it, and `pair TIMESTAMP` and `among TIMESTAMP VERTEX ..` show what it tells. A change that doesn't come after
/// all others and after the floor is no case, and neither is a pair up to the floor.
pub fn cell(alloc: Global, text: &str, answer: &mut String) -> Result<(), CaseFault> {
    let mut cell = Cell::new(alloc);
    let mut last = Stamp(0);
    for step in text.split(" / ") {
        last = take_step(alloc, &mut cell, last, step, answer)?;
    }
    Ok(())
}

/// Takes a step in a cell, all of whose changes came by `last`, and gives by when they came then.
fn take_step(
    alloc: Global,
    cell: &mut Cell,
    last: Stamp,
    step: &str,
    answer: &mut String,
) -> Result<Stamp, CaseFault>
    requires { CameBy last cell.old }
    ensures { IfOk result (λ now. CameBy now cell.new) }
{
    let (verb, text) = field(step);
    let (word, text) = field(text);
    let t = stamp(word)?;
    match verb {
        "label" => note_label(cell, last, t, text),
        "near" => note_near(cell, last, t, text),
        "fold" => {
            cell.fold_to(t);
            Ok(last)
        }
        "pair" => {
            pair(alloc, cell, t, answer)?;
            Ok(last)
        }
        "among" => {
            pair_among(alloc, cell, t, text, answer)?;
            Ok(last)
        }
        _ => Err(CaseFault::BadCase),
    }
}

fn note_label(cell: &mut Cell, last: Stamp, at: Stamp, text: &str) -> Result<Stamp, CaseFault>
    requires { CameBy last cell.old }
    ensures { IfOk result (λ now. CameBy now cell.new) }
{
    let label = label(text)?;
    if at.0 <= last.0 || at <= cell.floor() {
        return Err(CaseFault::BadCase);
    }
    cell.reserve_label()?;
    cell.set_label(at, label);
    Ok(at)
}

fn note_near(cell: &mut Cell, last: Stamp, at: Stamp, text: &str) -> Result<Stamp, CaseFault>
    requires { CameBy last cell.old }
    ensures { IfOk result (λ now. CameBy now cell.new) }
{
    let (word, text) = field(text);
    let to = vertex(word)?;
    let label = label(text)?;
    if at.0 <= last.0 || at <= cell.floor() {
        return Err(CaseFault::BadCase);
    }
    cell.reserve_near(to)?;
    cell.set_near(at, to, label);
    Ok(at)
}

fn pair(alloc: Global, cell: &Cell, t: Stamp, answer: &mut String) -> Result<(), CaseFault> {
    if t <= cell.floor() {
        return Err(CaseFault::BadCase);
    }
    separate(answer)?;
    show_pair(&cell.pair(alloc, t)?, answer)
}

fn pair_among(
    alloc: Global,
    cell: &Cell,
    t: Stamp,
    among: &str,
    answer: &mut String,
) -> Result<(), CaseFault> {
    if t <= cell.floor() {
        return Err(CaseFault::BadCase);
    }
    let among = ascending_vertices(alloc, among)?;
    separate(answer)?;
    show_pair(&cell.pair_among(alloc, t, among.as_slice())?, answer)
}
