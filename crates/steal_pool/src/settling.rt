ghost use Rattle.std.specs.Prelude.{◌≡◌, length, map, All, IfOk};
ghost use Rattle.steal_pool.specs.calls.Settling.{TakesBack};
ghost use Rattle.steal_pool.specs.meaning.Pool.{AreAllThieves};
ghost use Rattle.steal_pool.specs.meaning.Tasks.{IsSharedOut};

use crate::books::Books;
use crate::{Feed, NumberList, NumberLists, Numbered, TaskList, Thief, ThiefList};
use graph_types::NoMemory;
use std::alloc::Global;
use std::sync::Wait;

/// What came of the tasks of a pool.
#[derive(Drop)]
pub struct Settled<T> {
    /// For each thief, in order, the numbers of the tasks that it took and did not put back, in the order
    /// in which it took them.
    pub taken: NumberLists,
    /// The tasks that nobody has.
    pub left: TaskList<T>,
}

/// Closes a pool, with its feed and all its thieves, and tells what came of each task that was fed. Takes
/// time and memory linear in their number. Out of memory, all that was handed in is dropped.
pub fn settle<T: Numbered, R: Wait>(
    rt: &R,
    alloc: Global,
    feed: Feed<T>,
    thieves: ThiefList<T>,
) -> Result<Settled<T>, NoMemory>
    requires { AreAllThieves feed thieves }
    ensures lists { IfOk result (λ settled. settled.taken ≡ map (λ thief. thief.taken) thieves) }
    ensures shared_out { IfOk result (λ settled. IsSharedOut feed.fed settled.taken (map T.number settled.left)) }
{
    let taken = lists_of(alloc, &thieves)?;
    let mut books = Books::open(feed);
    add_all(&mut books, thieves);
    let mut left = TaskList::new(alloc);
    books.drain_deque(rt, &mut left)?;
    books.drain_queue(rt, &mut left)?;
    Ok(Settled { taken, left })
}

fn lists_of<T: Numbered>(alloc: Global, thieves: &ThiefList<T>) -> Result<NumberLists, NoMemory>
    ensures { IfOk result (λ lists. lists ≡ map (λ thief. thief.taken) thieves.now) }
{
    let mut lists = NumberLists::new(alloc);
    for thief in thieves.as_slice() {
        let list = list_of(alloc, thief)?;
        lists.push(list)?;
    }
    Ok(lists)
}

fn list_of<T: Numbered>(alloc: Global, thief: &Thief<T>) -> Result<NumberList, NoMemory>
    ensures { IfOk result (λ list. list ≡ thief.now.taken) }
{
    let mut list = NumberList::new(alloc);
    for number in thief.numbers.iter() {
        list.push(*number)?;
    }
    Ok(list)
}

// Takes the passes of all thieves back.
fn add_all<T: Numbered>(books: &mut Books<T>, mut thieves: ThiefList<T>)
    requires { All (λ thief. thief.pool ≡ books.old.pool) thieves }
    ensures { TakesBack thieves books.old books.new }
{
    while let Some(thief) = thieves.pop() {
        books.add(thief);
    }
}
