use crate::case::CaseFault;
use graph_types::{LabelId, Net};
use std::fmt::Write;
use update_rules::{Change, Part, PartList};

/// The net change, an edge as `1-2`, and the parts.
pub fn show_difference(net: &Net, parts: &PartList, answer: &mut String) -> Result<(), CaseFault> {
    answer.push_str("vertices")?;
    for vertex in net.vertices.as_slice() {
        write!(answer, " {}", vertex.0)?;
    }
    answer.push_str(", edges")?;
    for edge in net.edges.as_slice() {
        write!(answer, " {}-{}", edge.a().0, edge.b().0)?;
    }
    for part in parts.as_slice() {
        show_part(part, answer)?;
    }
    Ok(())
}

fn show_part(part: &Part, answer: &mut String) -> Result<(), CaseFault> {
    write!(answer, "; shard {}:", part.shard)?;
    for change in part.changes.as_slice() {
        show_change(change, answer)?;
    }
    Ok(())
}

/// A changed label as `(1 =2)`, and a changed neighbour as `(1 to 3 none)`.
fn show_change(change: &Change, answer: &mut String) -> Result<(), CaseFault> {
    match *change {
        Change::Label { vertex, label } => {
            write!(answer, " ({} ", vertex.0)?;
            show_label(label, answer)?;
        }
        Change::Near { vertex, to, label } => {
            write!(answer, " ({} to {} ", vertex.0, to.0)?;
            show_label(label, answer)?;
        }
    }
    answer.push_str(")")?;
    Ok(())
}

fn show_label(label: Option<LabelId>, answer: &mut String) -> Result<(), CaseFault> {
    match label {
        Some(label) => write!(answer, "={}", label.0)?,
        None => answer.push_str("none")?,
    }
    Ok(())
}
