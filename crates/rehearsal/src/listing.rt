ghost use Rattle.std.specs.Prelude.{◌≡◌, ◌++◌, ◌+◌, ◌≤◌, ◌^◌, map as mapped, length, IfOk, OnOk};
ghost use Rattle.std.specs.List.{range_with_len};
ghost use Rattle.rehearsal.specs.meaning.Kinds.{event_of_shard, event_of_task};
ghost use Rattle.rehearsal.specs.meaning.Table.{all_events};

use crate::event::Event;
use graph_types::{List, NoMemory, Stamp};
use group_window::Window;
use std::alloc::Global;

/// The kinds of events that are about a shard.
#[derive(Clone, Copy)]
enum ShardKind {
    IngestPut,
    IngestTake,
    PrunePut,
    PruneTake,
}

/// The kinds of events that are about a task.
#[derive(Clone, Copy)]
enum TaskKind {
    Begin,
    Explore,
    Finish,
    SeeDone,
}

impl ShardKind {
    fn of(self, s: u32) -> Event
        ensures { result ≡ event_of_shard self s }
    {
        match self {
            ShardKind::IngestPut => Event::IngestPut(s),
            ShardKind::IngestTake => Event::IngestTake(s),
            ShardKind::PrunePut => Event::PrunePut(s),
            ShardKind::PruneTake => Event::PruneTake(s),
        }
    }

    fn add_all(self, events: &mut List<Event>, shards: u32) -> Result<(), NoMemory>
        ensures { OnOk result (events.new ≡ events.old ++ mapped (event_of_shard self) (range_with_len 0 shards)) }
    {
        for s in 0..shards {
            events.push(self.of(s))?;
        }
        Ok(())
    }
}

impl TaskKind {
    fn of(self, t: Stamp) -> Event
        ensures { result ≡ event_of_task self t }
    {
        match self {
            TaskKind::Begin => Event::Begin(t),
            TaskKind::Explore => Event::Explore(t),
            TaskKind::Finish => Event::Finish(t),
            TaskKind::SeeDone => Event::SeeDone(t),
        }
    }

    fn add_all(self, events: &mut List<Event>, window: &Window) -> Result<(), NoMemory>
        ensures { OnOk result (events.new ≡ events.old ++ mapped (event_of_task self) (range_with_len (window.now.first + 1) (length window.now.later))) }
    {
        for group in 0..window.len() {
            events.push(self.of(window.stamp_after(group + 1)))?;
        }
        Ok(())
    }
}

/// All events of a window that is parted among so many shards, in the order in which they are listed.
pub(crate) fn all_events(
    alloc: Global,
    window: &Window,
    shards: u32,
) -> Result<List<Event>, NoMemory>
    requires { shards ≡ window.now.shards }
    ensures { IfOk result (λ events. events ≡ all_events window.now) }
{
    let mut events = List::new(alloc);
    ShardKind::IngestPut.add_all(&mut events, shards)?;
    ShardKind::IngestTake.add_all(&mut events, shards)?;
    events.push(Event::Stamp)?;
    TaskKind::Begin.add_all(&mut events, window)?;
    TaskKind::Explore.add_all(&mut events, window)?;
    TaskKind::Finish.add_all(&mut events, window)?;
    TaskKind::SeeDone.add_all(&mut events, window)?;
    events.push(Event::Raise)?;
    events.push(Event::SeeFront)?;
    ShardKind::PrunePut.add_all(&mut events, shards)?;
    ShardKind::PruneTake.add_all(&mut events, shards)?;
    Ok(events)
}
