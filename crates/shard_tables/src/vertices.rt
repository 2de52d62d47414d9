ghost use Rattle.std.specs.Prelude.{◌≡◌, true, nat_lt, IfOk, OnOk};
ghost use Rattle.std.specs.List.{list_all};
ghost use Rattle.std.specs.List.Sorted.{IsStrictlySortedBy};
ghost use Rattle.std.specs.Ordering.{nat_cmp};

use crate::case::{CaseFault, vertex};
use graph_types::{List, VertexId};
use std::alloc::Global;

/// `V V ..`: vertices that ascend, or none.
pub fn ascending_vertices(alloc: Global, text: &str) -> Result<List<VertexId>, CaseFault>
    ensures { IfOk result (λ vertices. IsStrictlySortedBy nat_cmp vertices) }
{
    let mut vertices = List::new(alloc);
    if text.is_empty() {
        return Ok(vertices);
    }
    for word in text.split(' ') {
        push_after(&mut vertices, vertex(word)?)?;
    }
    Ok(vertices)
}

/// Puts a vertex behind those that are all below it.
fn push_after(vertices: &mut List<VertexId>, v: VertexId) -> Result<(), CaseFault>
    requires { IsStrictlySortedBy nat_cmp vertices.old }
    ensures { OnOk result (IsStrictlySortedBy nat_cmp vertices.new) }
{
    if !are_below(vertices.as_slice(), v) {
        return Err(CaseFault::BadCase);
    }
    vertices.push(v)?;
    Ok(())
}

fn are_below(vertices: &[VertexId], v: VertexId) -> bool
    ensures { result ≡ list_all (λ w. nat_lt w v) vertices.now }
{
    vertices.iter().all(|w| *w < v)
}
