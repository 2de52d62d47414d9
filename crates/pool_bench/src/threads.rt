//! A thread that feeds a pool, and its thieves in threads of their own.
ghost use Rattle.std.specs.Prelude.{◌≡◌, ◌+◌, ◌≤◌, false, length, map, IfOk};
ghost use Rattle.std.specs.Thread.{IsSync};
ghost use Rattle.steal_pool.specs.meaning.Pool.{AreAllThieves};

use graph_types::NoMemory;
use std::sync::Wait;
use std::thread::{Threads, join};
use steal_pool::{Feed, Numbered, Taken, Thief, ThiefList};

/// A task without work.
#[derive(Drop)]
pub struct Task {
    number: u64,
}

impl Numbered for Task {
    ghost number = { λ task. task.number };

    fn number(&self) -> u64 {
        self.number
    }
}

/// Feeds the tasks in one thread, while each thief takes them in one of its own.
pub fn feed_and_take<R: Threads + Wait + Sync>(
    rt: &R,
    feed: Feed<Task>,
    thieves: ThiefList<Task>,
    tasks: u32,
) -> Result<(Feed<Task>, ThiefList<Task>), NoMemory>
    requires thieves { AreAllThieves feed thieves }
    requires room { length feed.fed + tasks ≤ feed.room }
    requires open { feed.is_shut ≡ false }
    ensures { IfOk result (λ sides. AreAllThieves sides.0 sides.1) }
{
    let (thieves, feed) = join(
        rt,
        || -> Result<ThiefList<Task>, NoMemory>
            requires { IsSync R.row }
            ensures { IfOk result (λ list. map (λ thief. thief.pool) list ≡ map (λ thief. thief.pool) thieves) }
        { run_thieves(rt, thieves) },
        || -> Feed<Task>
            requires { (length feed.fed + tasks ≤ feed.room) × (feed.is_shut ≡ false) }
            ensures { (result.pool ≡ feed.pool) × (result.thieves ≡ feed.thieves) }
        { feed_all(rt, feed, tasks) },
    );
    Ok((feed, thieves?))
}

// Each thief takes tasks in a thread of its own.
fn run_thieves<R: Threads + Wait + Sync>(
    rt: &R,
    mut thieves: ThiefList<Task>,
) -> Result<ThiefList<Task>, NoMemory>
    ensures { IfOk result (λ list. map (λ thief. thief.pool) list ≡ map (λ thief. thief.pool) thieves) }
{
    let Some(last) = thieves.pop() else {
        return Ok(thieves);
    };
    let (others, last) = join(
        rt,
        || -> Result<ThiefList<Task>, NoMemory>
            requires { IsSync R.row }
            ensures { IfOk result (λ list. map (λ thief. thief.pool) list ≡ map (λ thief. thief.pool) thieves) }
        { run_thieves(rt, thieves) },
        || -> Thief<Task>
            ensures { result.pool ≡ last.pool }
        { take_all(rt, last) },
    );
    let mut others = others?;
    others.push(last)?;
    Ok(others)
}

// Takes tasks until no more come.
fn take_all<R: Wait>(rt: &R, mut thief: Thief<Task>) -> Thief<Task>
    ensures { result.pool ≡ thief.pool }
{
    for _ in rt.forever() {
        if let Taken::Ended = thief.steal(rt) {
            break;
        }
    }
    thief
}

// Feeds so many tasks, by their numbers from 0, and then shuts the feed.
fn feed_all<R: Wait>(rt: &R, mut feed: Feed<Task>, tasks: u32) -> Feed<Task>
    requires room { length feed.fed + tasks ≤ feed.room }
    requires open { feed.is_shut ≡ false }
    ensures { (result.pool ≡ feed.pool) × (result.thieves ≡ feed.thieves) }
{
    for i in 0..tasks {
        feed.feed(Task {
            number: u64::from(i),
        });
    }
    feed.shut(rt);
    feed
}
