use crate::case::{CaseFault, field, number};
use graph_types::{FreeGate, Gate, Point, Stamp};
use std::sync::Wait;

/// `gate stamped|begun|finished TIMESTAMP`: passes the open gate.
pub fn gate<R: Wait>(rt: &R, text: &str, answer: &mut String) -> Result<(), CaseFault> {
    let (moment, stamp) = field(text);
    let stamp = Stamp(u64::from(number(stamp)?));
    let point = match moment {
        "stamped" => Point::Stamped(stamp),
        "begun" => Point::Begun(stamp),
        "finished" => Point::Finished(stamp),
        _ => return Err(CaseFault::BadCase),
    };
    pass(rt, &FreeGate, point);
    answer.push_str("passed")?;
    Ok(())
}

fn pass<R: Wait, G: Gate>(rt: &R, gate: &G, point: Point) {
    gate.pass(rt, point);
}
