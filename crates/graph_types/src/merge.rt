ghost use Rattle.std.specs.Prelude.{◌≡◌, filter, length, nat_lt, take_while, IfOk};
ghost use Rattle.std.specs.Iterator.{YieldsFirst, at_most};
ghost use Rattle.std.specs.List.Sorted.{IsStrictlySortedBy};
ghost use Rattle.std.specs.Ordering.{nat_cmp};
ghost use Rattle.graph_types.specs.meaning.Neighbourhood.{leads_among, near_of};
ghost use Rattle.graph_types.specs.storage.Ahead.{above, lower_of, near_ends};

use crate::cursor::Cursor;
use crate::{Near, NearList, NoMemory, VertexId};
use std::alloc::Global;
use std::marker::Model;

/// Goes over the neighbours of a vertex in two graphs, ascending. Contracts see the list of those still
/// to come.
#[derive(Drop)]
pub(crate) struct Merge<'a> {
    before: Cursor<'a>,
    after: Cursor<'a>,
}

impl<'a> Model for Merge<'a> {
    ghost use Rattle.std.specs.Prelude.{List};
    ghost use Rattle.graph_types.specs.declared.near.Near.{Near};
    ghost use Rattle.graph_types.specs.meaning.Neighbourhood.{leads_among, near_of};

    ghost Value = { List Near };

    ghost view = { λ m. near_of m.before m.after };
}

impl<'a> Merge<'a> {
    /// Goes over what is to come before, and after.
    pub fn of(before: Cursor<'a>, after: Cursor<'a>) -> Merge<'a>
        ensures { result ≡ near_of before.entry after.entry }
    {
        Merge { before, after }
    }
}

impl<'a> Iterator for Merge<'a> {
    type Item = Near;

    ghost next_gives = { YieldsFirst (λ s. s) };

    ghost remaining = { λ s. at_most (length s) };

    fn next(&mut self) -> Option<Near> {
        let to = lower(self.before.vertex(), self.after.vertex())?;
        Some(Near {
            to,
            before: self.before.pass(to),
            after: self.after.pass(to),
        })
    }
}

/// The lower of two vertices, where both are there, and else the one that is.
fn lower(x: Option<VertexId>, y: Option<VertexId>) -> Option<VertexId>
    ensures { result ≡ lower_of x y }
{
    let (Some(a), Some(b)) = (x, y) else {
        return x.or(y);
    };
    Some(if b < a { b } else { a })
}

/// What is still to come, in a new list. It takes memory once where no more come than there is to be room for.
pub(crate) fn list(alloc: Global, merge: Merge<'_>, room: usize) -> Result<NearList, NoMemory>
    ensures { IfOk result (λ near. near ≡ merge.entry) }
{
    let mut list = NearList::with_room(alloc, room)?;
    for near in merge {
        list.push(near)?;
    }
    Ok(list)
}

/// What is still to come and leads to one of these vertices, in a new list. It goes on to the last of them.
pub(crate) fn list_among(
    alloc: Global,
    merge: Merge<'_>,
    among: &[VertexId],
) -> Result<NearList, NoMemory>
    requires given { IsStrictlySortedBy nat_cmp among.now }
    requires merged { IsStrictlySortedBy nat_cmp (near_ends merge) }
    ensures { IfOk result (λ near. near ≡ filter (leads_among among.now) merge.entry) }
{
    let mut list = NearList::new(alloc);
    let mut rest = among;
    for near in merge {
        rest = skip_below(rest, near.to);
        let Some(to) = rest.first() else {
            return Ok(list);
        };
        if near.to == *to {
            list.push(near)?;
        }
    }
    Ok(list)
}

/// The vertices without the first that are below `v`.
fn skip_below(vertices: &[VertexId], v: VertexId) -> &[VertexId]
    ensures { result.now ≡ above v vertices.now }
{
    vertices.split_at(count_below(vertices, v)).1
}

fn count_below(vertices: &[VertexId], v: VertexId) -> usize
    ensures { result ≡ length (take_while (λ w. nat_lt w v) vertices.now) }
{
    vertices.iter().take_while(|w| **w < v).count()
}
