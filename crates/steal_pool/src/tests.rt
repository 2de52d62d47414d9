//! Tasks that go through a pool, by one thread and by five.
ghost use Rattle.std.specs.Prelude.{◌≡◌, ◌+◌, ◌<◌, ◌≤◌, ℕ, false, [], length, map, IfOk, OnOk};
ghost use Rattle.std.specs.Thread.{IsSync};
ghost use Rattle.steal_pool.specs.meaning.Pool.{AreAllThieves};

use crate::{Feed, Numbered, Settled, Taken, Thief, ThiefList, pool, settle};
use graph_types::NoMemory;
use std::alloc::Global;
use std::sync::Wait;
use std::test::Fail;
use std::thread::{Threads, join};

/// A task that is put back so many times.
#[derive(Drop)]
struct Job {
    number: u64,
    rests: u8,
}

impl Numbered for Job {
    ghost number = { λ job. job.number };

    fn number(&self) -> u64 {
        self.number
    }
}

// What `turn` answers where it takes no task.
const SHUT: u64 = 1_000_001;

const ENDED: u64 = 1_000_002;

// Steals once, and puts the task back if it is to rest. Answers the task's number.
fn turn<R: Wait>(rt: &R, thief: &mut Thief<Job>) -> u64
    ensures { thief.new.pool ≡ thief.old.pool }
{
    match thief.steal(rt) {
        Taken::Task(job) => {
            let number = job.number;
            if job.rests > 0 {
                let rested = Job {
                    number,
                    rests: job.rests - 1,
                };
                let _ = thief.again(rt, rested);
            }
            number
        }
        Taken::Shut => SHUT,
        Taken::Ended => ENDED,
    }
}

// Each thief has one turn, in order.
fn turns<R: Wait>(
    rt: &R,
    mut thieves: ThiefList<Job>,
    log: &mut Vec<u64>,
) -> Result<ThiefList<Job>, NoMemory>
    ensures { IfOk result (λ list. map (λ thief. thief.pool) list ≡ map (λ thief. thief.pool) thieves) }
{
    let Some(mut last) = thieves.pop() else {
        return Ok(thieves);
    };
    let mut others = turns(rt, thieves, log)?;
    log.push(turn(rt, &mut last))?;
    others.push(last)?;
    Ok(others)
}

// Feeds tasks 1 to `count`.
fn feed_all(feed: &mut Feed<Job>, count: u64, rests: u8)
    requires room { length feed.old.fed + count ≤ feed.old.room }
    requires open { feed.old.is_shut ≡ false }
    ensures { (feed.new.pool ≡ feed.old.pool) × (feed.new.thieves ≡ feed.old.thieves) }
{
    for i in 0..count {
        feed.feed(Job {
            number: i + 1,
            rests,
        });
    }
}

// Works until nothing is left.
fn work<R: Wait>(rt: &R, mut thief: Thief<Job>) -> Thief<Job>
    ensures { result.pool ≡ thief.pool }
{
    for _ in rt.forever() {
        if turn(rt, &mut thief) == ENDED {
            break;
        }
    }
    thief
}

// Each thief works in a thread of its own.
fn work_all<R: Threads + Wait + Sync>(
    rt: &R,
    mut thieves: ThiefList<Job>,
) -> Result<ThiefList<Job>, NoMemory>
    ensures { IfOk result (λ list. map (λ thief. thief.pool) list ≡ map (λ thief. thief.pool) thieves) }
{
    let Some(last) = thieves.pop() else {
        return Ok(thieves);
    };
    let (others, last) = join(
        rt,
        || -> Result<ThiefList<Job>, NoMemory>
            requires { IsSync R.row }
            ensures { IfOk result (λ list. map (λ thief. thief.pool) list ≡ map (λ thief. thief.pool) thieves) }
        { work_all(rt, thieves) },
        || -> Thief<Job>
            ensures { result.pool ≡ last.pool }
        { work(rt, last) },
    );
    let mut others = others?;
    others.push(last)?;
    Ok(others)
}

// Feeds tasks in one thread, while each thief works in one of its own.
fn run_threads<R: Threads + Wait + Sync>(
    rt: &R,
    alloc: Global,
    thieves: u32,
    count: u32,
    rests: u8,
) -> Result<Settled<Job>, NoMemory>
    requires { 1 ≤ thieves }
{
    let (feed, thieves) = pool::<Job>(alloc, thieves, count)?;
    let (thieves, feed) = join(
        rt,
        || -> Result<ThiefList<Job>, NoMemory>
            requires { IsSync R.row }
            ensures { IfOk result (λ list. map (λ thief. thief.pool) list ≡ map (λ thief. thief.pool) thieves) }
        { work_all(rt, thieves) },
        || -> Feed<Job>
            requires { (length feed.fed + count ≤ feed.room) × (feed.is_shut ≡ false) }
            ensures { (result.pool ≡ feed.pool) × (result.thieves ≡ feed.thieves) }
        { feed_and_shut(rt, feed, count, rests) },
    );
    settle(rt, alloc, feed, thieves?)
}

fn feed_and_shut<R: Wait>(rt: &R, mut feed: Feed<Job>, count: u32, rests: u8) -> Feed<Job>
    requires room { length feed.fed + count ≤ feed.room }
    requires open { feed.is_shut ≡ false }
    ensures { (result.pool ≡ feed.pool) × (result.thieves ≡ feed.thieves) }
{
    feed_all(&mut feed, u64::from(count), rests);
    feed.shut(rt);
    feed
}

// So many turns of each thief, once the tasks are fed, of which the first is put back so many times: the
// answers, and what is settled.
fn run_turns<R: Wait>(
    rt: &R,
    alloc: Global,
    thieves: u32,
    tasks: u32,
    rests: u8,
    rounds: u32,
    log: &mut Vec<u64>,
) -> Result<Settled<Job>, NoMemory>
    requires { 1 ≤ thieves }
{
    let (mut feed, mut thieves) = pool::<Job>(alloc, thieves, tasks)?;
    for i in 0..tasks {
        feed.feed(Job {
            number: u64::from(i) + 1,
            rests: if i == 0 { rests } else { 0 },
        });
    }
    feed.shut(rt);
    for _i in 0..rounds {
        thieves = turns(rt, thieves, log)?;
    }
    settle(rt, alloc, feed, thieves)
}

// All numbers of the lists, in ascending order.
fn sorted(alloc: Global, settled: &Settled<Job>) -> Result<Vec<u64>, NoMemory> {
    let mut numbers = Vec::new(alloc);
    for list in settled.taken.as_slice() {
        numbers.extend_from_slice(list.as_slice())?;
    }
    numbers.sort()?;
    Ok(numbers)
}

#[test]
fn thieves_steal_in_turns(rt: HostRuntime) -> Result<(), Fail> {
    let mut log = Vec::new(rt.alloc());
    let settled = run_turns(&rt, rt.alloc(), 2, 3, 0, 4, &mut log)?;
    assert_eq!(rt;
        log.as_slice(),
        [1, 2, 3, SHUT, SHUT, ENDED, ENDED, ENDED].as_slice()
    );
    assert_eq!(rt;
        sorted(rt.alloc(), &settled)?.as_slice(),
        [1, 2, 3].as_slice()
    );
    assert!(rt; settled.left.is_empty());
    Ok(())
}

#[test]
fn a_task_is_put_back(rt: HostRuntime) -> Result<(), Fail> {
    let mut log = Vec::new(rt.alloc());
    let settled = run_turns(&rt, rt.alloc(), 1, 2, 1, 5, &mut log)?;
    assert_eq!(rt; log.as_slice(), [1, 2, 1, SHUT, ENDED].as_slice());
    assert_eq!(rt; sorted(rt.alloc(), &settled)?.as_slice(), [1, 2].as_slice());
    assert!(rt; settled.left.is_empty());
    Ok(())
}

#[test]
fn four_threads_take_each_task_once(rt: HostRuntime) -> Result<(), Fail> {
    let settled = run_threads(&rt, rt.alloc(), 4, 1000, 3)?;
    let numbers = sorted(rt.alloc(), &settled)?;
    let mut wanted = 0u64;
    for number in numbers.as_slice() {
        wanted = wanted.wrapping_add(1);
        assert_eq!(rt; *number, wanted);
    }
    assert_eq!(rt; wanted, 1000);
    assert!(rt; settled.left.is_empty());
    Ok(())
}
