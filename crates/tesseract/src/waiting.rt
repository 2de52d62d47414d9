ghost use Rattle.std.specs.Prelude.{◌≤◌, ◌<◌, IfOk, IsSome, OnOk, length};
ghost use Rattle.group_window.specs.meaning.Windows.{IsSound, most_groups};
ghost use Rattle.tesseract.specs.calls.Waiting.{CanKeep, EndsAt, Keeps};

use graph_types::{NoMemory, Snapshot};
use group_window::Window;
use shard_state::Shard;
use update_reader::Item;

/// The groups that were accepted and wait to be mined, the shards, which hold the graph before them, and how many
/// pieces stand there.
#[derive(Drop)]
pub struct Waiting {
    pub window: Window,
    pub shards: Vec<Shard>,
    pub standing: u64,
}

/// What is to come of a window.
pub enum Kept {
    /// There is room for more.
    More,
    /// It is full, or was told to end.
    Ended,
}

impl Waiting {
    /// Makes the item's update in the graph, and keeps what it changes; or opens or ends a group. The window ends with
    /// as many groups as it may have, or where the item says so. Out of memory may leave a part done.
    pub fn keep(&mut self, graph: &mut Snapshot, item: Item, most: u32) -> Result<Kept, NoMemory>
        requires can { CanKeep item self.old.window graph.old }
        requires room { length self.old.window.later < most }
        requires narrow { most ≤ most_groups }
        ensures keeps { OnOk result (Keeps item self.old graph.old self.new graph.new) }
        ensures ends { IfOk result (EndsAt most self.new.window) }
        ensures sound { IsSound self.old.window }
    {
        self.window.sound();
        match item {
            Item::Nothing => return Ok(Kept::More),
            Item::Commit => return Ok(Kept::Ended),
            Item::BatchBegin => {
                self.window.begin_group();
                return Ok(Kept::More);
            }
            Item::BatchEnd => self.window.end_group(graph)?,
            Item::Update(update) => self.window.push_accepted(graph, &update)?,
        }
        Ok(self.to_come(most))
    }

    /// What is to come after a group or an update more, where a window has at most so many groups.
    fn to_come(&self, most: u32) -> Kept
        requires { IsSome self.now.window.current → length self.now.window.later < most }
        ensures { EndsAt most self.now.window result }
    {
        if self.window.len() < most as usize {
            Kept::More
        } else {
            Kept::Ended
        }
    }
}
