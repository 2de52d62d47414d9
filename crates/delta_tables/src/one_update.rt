//! What each search tells of one update.
ghost use Rattle.std.specs.Prelude.{◌≡◌};
ghost use Rattle.mining_model.specs.meaning.NetChange.{net_change};

use crate::catches::count_kept;
use crate::deltas::{are_same, delta, delta_in_turns};
use crate::exploring::{finds, finds_in_turns};
use crate::finds::Find;
use crate::graphs::{build, make};
use crate::programs::read;
use crate::report::Report;
use filter_polarity::Program;
use graph_types::{List, Net, NoMemory, Snapshot, Update};
use line_fields::Names;
use seeded_search::Stop;
use std::alloc::Global;
use update_reader::{Item, UpdateFault, read_line};
use update_rules::{admit, net_of};

/// `MOST: PROGRAM;begin;UPDATE;..;UPDATE`: what the last update changes in the graph that the others make, of which those
/// that it refuses are left out. At most so many pieces may be listed.
pub fn tell(alloc: Global, text: &str) -> Result<String, NoMemory> {
    let (number, text) = text.split_once(": ").unwrap_or((text, ""));
    let Ok(most) = number.parse::<u32>() else {
        return Ok(String::from_str(alloc, "no number")?);
    };
    let mut names = Names::new(alloc)?;
    let Ok(program) = read(alloc, text, &mut names)? else {
        return Ok(String::from_str(alloc, "no program")?);
    };
    let (_, lines) = text.split_once(";begin;").unwrap_or(("", ""));
    let Some(mut updates) = read_updates(alloc, lines, &mut names)? else {
        return Ok(String::from_str(alloc, "no updates")?);
    };
    match updates.pop() {
        Some(last) => tell_update(alloc, &program, &updates, &last, most),
        None => Ok(String::from_str(alloc, "no updates")?),
    }
}

/// The updates of lines, or `None` where one of them is none.
fn read_updates(
    alloc: Global,
    text: &str,
    names: &mut Names,
) -> Result<Option<List<Update>>, NoMemory> {
    let mut updates = List::new(alloc);
    for line in text.split(';') {
        match read_line(alloc, line.as_bytes(), names) {
            Ok(Item::Update(update)) => updates.push(update)?,
            Err(UpdateFault::NoMemory) => return Err(NoMemory),
            _ => return Ok(None),
        }
    }
    Ok(Some(updates))
}

/// What an update changes in the graph that others make.
fn tell_update(
    alloc: Global,
    program: &Program,
    others: &[Update],
    update: &Update,
    most: u32,
) -> Result<String, NoMemory> {
    let before = build(alloc, others)?;
    if let Err(_) = admit(&before, update) {
        return Ok(String::from_str(alloc, "refused")?);
    }
    let net = net_of(alloc, &before, update)?;
    let mut after = build(alloc, others)?;
    make(&mut after, update)?;
    match report(alloc, program, &net, &before, &after, most) {
        Ok(report) => report.text(alloc),
        Err(Stop::NoMemory) => Err(NoMemory),
        Err(Stop::Full) => Ok(String::from_str(alloc, "too many finds")?),
        Err(Stop::Held(_)) => Ok(String::from_str(alloc, "held")?),
    }
}

/// What the searches tell of a change, of which this is the net change.
fn report(
    alloc: Global,
    program: &Program,
    net: &Net,
    before: &Snapshot,
    after: &Snapshot,
    most: u32,
) -> Result<Report, Stop>
    requires { net.now ≡ net_change before.now after.now }
{
    let found = finds(alloc, program, net, before, after)?;
    let found_in_turns = finds_in_turns(alloc, program, net, before, after)?;
    let told = delta(alloc, program, net, before, after, most)?;
    let told_in_turns = delta_in_turns(alloc, program, net, before, after, most)?;
    let same_in_turns = are_equal(&found, &found_in_turns) && are_same(&told, &told_in_turns);
    Ok(Report {
        found,
        kept: count_kept(alloc, program, net, before, after, most)?,
        delta: told,
        same_in_turns,
    })
}

fn are_equal(finds: &[Find], others: &[Find]) -> bool {
    finds == others
}
