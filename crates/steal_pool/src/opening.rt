ghost use Rattle.std.specs.Prelude.{◌≡◌, ◌+◌, ◌<◌, ◌≤◌, false, [], length, IfOk, OnOk};
ghost use Rattle.steal_pool.specs.calls.Making.{IsNewPool, new_feed, new_thief};
ghost use Rattle.steal_pool.specs.meaning.Pool.{AreAllThieves};
ghost use Rattle.steal_pool.specs.storage.Balance.{all_parts};

use crate::balance::Part;
use crate::shared::{DequeOwner, Queue, Shared};
use crate::shut_word::{Reader, ShutWord};
use crate::{Feed, Numbered, Thief, ThiefList};
use graph_types::NoMemory;
use std::alloc::Global;
use std::collections::LinkedList;
use std::sync::Arc;

/// A pool with so many thieves, and with room for so many tasks in all. Takes all memory for the tasks
/// and for the thieves' lists here: a slot of the deque and a note for each task, and some for each
/// thief. Takes time linear in both.
pub fn pool<T: Numbered>(
    alloc: Global,
    thieves: u32,
    room: u32,
) -> Result<(Feed<T>, ThiefList<T>), NoMemory>
    requires { 1 ≤ thieves }
    ensures new { IfOk result (λ made. IsNewPool thieves room made.0 made.1) }
    ensures all { IfOk result (λ made. AreAllThieves made.0 made.1) }
{
    let mut feed = open_feed(alloc, room)?;
    let mut list = ThiefList::new(alloc);
    for _i in 0..thieves {
        let thief = add_thief(alloc, &mut feed)?;
        list.push(thief)?;
    }
    Ok((feed, list))
}

// The feed of a pool that has no thief yet.
fn open_feed<T: Numbered>(alloc: Global, room: u32) -> Result<Feed<T>, NoMemory>
    ensures { IfOk result (λ feed. feed ≡ new_feed feed.pool 0 room) }
{
    let deque = DequeOwner::fifo_as(alloc, room as usize)?;
    let (queue, queue_pass) = Queue::new_as(alloc)?;
    let (shut, shut_pass) = ShutWord::ruled(alloc, [0])?;
    let shared = Arc::new(alloc, Shared { queue, shut })?;
    let notes = blank_notes(alloc, room)?;
    Ok(Feed {
        deque,
        shared,
        queue_pass,
        shut_pass,
        notes,
    })
}

fn blank_notes(alloc: Global, room: u32) -> Result<LinkedList<u64>, NoMemory>
    ensures { IfOk result (λ notes. length notes ≡ room) }
{
    let mut notes = LinkedList::new(alloc);
    for _i in 0..room {
        notes.push_back(0)?;
    }
    Ok(notes)
}

fn add_thief<T: Numbered>(alloc: Global, feed: &mut Feed<T>) -> Result<Thief<T>, NoMemory>
    requires { feed.old.thieves + 1 < all_parts }
    ensures feed { OnOk result (feed.new ≡ record feed.old { thieves = feed.old.thieves + 1 }) }
    ensures thief { IfOk result (λ thief. thief ≡ new_thief feed.old.pool) }
{
    let stealer = feed.deque.stealer()?;
    let shared = Arc::try_clone(&feed.shared)?;
    let deque_pass = feed.deque.another::<Part>();
    let queue_pass = feed.shared.queue.another::<Part>(&mut feed.queue_pass);
    let shut_pass = feed.shared.shut.split_pass::<Reader>(&mut feed.shut_pass);
    Ok(Thief {
        stealer,
        shared,
        deque_pass,
        queue_pass,
        shut_pass,
        numbers: LinkedList::new(alloc),
        knows_shut: false,
        empty_deques: 0,
        empty_queues: 0,
    })
}
