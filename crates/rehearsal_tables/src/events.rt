use crate::case::{CaseFault, field, number};
use graph_types::Stamp;
use rehearsal::Event;
use std::fmt::Write;

/// An event: its name, and the number of its shard or the timestamp of its task.
pub fn read_event(text: &str) -> Result<Event, CaseFault> {
    let (name, word) = field(text);
    match name {
        "Stamp" => return Ok(Event::Stamp),
        "Raise" => return Ok(Event::Raise),
        "SeeFront" => return Ok(Event::SeeFront),
        _ => {}
    }
    let number = number(word)?;
    let t = Stamp(u64::from(number));
    match name {
        "IngestPut" => Ok(Event::IngestPut(number)),
        "IngestTake" => Ok(Event::IngestTake(number)),
        "Begin" => Ok(Event::Begin(t)),
        "Explore" => Ok(Event::Explore(t)),
        "Finish" => Ok(Event::Finish(t)),
        "SeeDone" => Ok(Event::SeeDone(t)),
        "PrunePut" => Ok(Event::PrunePut(number)),
        "PruneTake" => Ok(Event::PruneTake(number)),
        _ => Err(CaseFault::BadCase),
    }
}

pub fn show_events(events: &[Event], answer: &mut String) -> Result<(), CaseFault> {
    if events.is_empty() {
        answer.push_str("none")?;
    }
    for (i, event) in events.iter().enumerate() {
        if i > 0 {
            answer.push_str(", ")?;
        }
        show_event(*event, answer)?;
    }
    Ok(())
}

fn show_event(event: Event, answer: &mut String) -> Result<(), CaseFault> {
    match event {
        Event::IngestPut(s) => write!(answer, "IngestPut {s}")?,
        Event::IngestTake(s) => write!(answer, "IngestTake {s}")?,
        Event::Stamp => answer.push_str("Stamp")?,
        Event::Begin(t) => write!(answer, "Begin {}", t.0)?,
        Event::Explore(t) => write!(answer, "Explore {}", t.0)?,
        Event::Finish(t) => write!(answer, "Finish {}", t.0)?,
        Event::SeeDone(t) => write!(answer, "SeeDone {}", t.0)?,
        Event::Raise => answer.push_str("Raise")?,
        Event::SeeFront => answer.push_str("SeeFront")?,
        Event::PrunePut(s) => write!(answer, "PrunePut {s}")?,
        Event::PruneTake(s) => write!(answer, "PruneTake {s}")?,
    }
    Ok(())
}
