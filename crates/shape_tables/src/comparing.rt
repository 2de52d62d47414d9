//! Fits beside what trying all orders finds.

use crate::draws::Draws;
use crate::made::{draw_pattern, draw_picture};
use crate::orders::first_order;
use crate::rows::number_in;
use conditions::Pattern;
use graph_types::{NoMemory, VertexId};
use picture::Picture;
use shapes::fit;
use std::alloc::Global;

/// How many of the made pictures have the shape of their pattern, or the first for which the two differ.
pub fn compared(alloc: Global, case: &str) -> Result<String, NoMemory> {
    let first = number_in(case, ' ', 1);
    let count = number_in(case, ' ', 2);
    let labels = number_in(case, ' ', 3).max(1);
    let mut fitting: u32 = 0;
    for k in 0..count {
        let mut draws = Draws::new(first.wrapping_add(k));
        let q = draw_picture(&mut draws, labels);
        let s = draw_pattern(alloc, &mut draws, &q)?;
        match fits(alloc, &s, &q)? {
            Some(true) => fitting = fitting.saturating_add(1),
            Some(false) => {}
            None => return Ok(format!(in alloc; "picture {k} differs")?),
        }
    }
    Ok(format!(in alloc; "{fitting} of {count} pictures fit")?)
}

/// Whether there is a fit, or `None` where the two differ.
fn fits(alloc: Global, s: &Pattern, q: &Picture) -> Result<Option<bool>, NoMemory> {
    if !s.is_within_limits() {
        return Ok(None);
    }
    let order = first_order(alloc, s, q)?;
    let found = fit(s, q);
    match found {
        Some(found) => {
            for i in 0..=order.len().min(9) {
                if found.at(i) != order.get(i).copied() {
                    return Ok(None);
                }
            }
            Ok(Some(true))
        }
        None => Ok(order.is_empty().then_some(false)),
    }
}
