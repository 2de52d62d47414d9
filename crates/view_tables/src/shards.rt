//! Shards of a window, and how far they are.
ghost use Rattle.std.specs.Prelude.{◌≡◌, ◌≤◌, IfOk, OnOk};
ghost use Rattle.shard_state.specs.calls.Sharing.{TellGroups};
ghost use Rattle.view_tables.specs.calls.Making.{IsBegun};

use graph_types::NoMemory;
use group_window::Window;
use shard_state::Shard;
use shard_state::sharing::{make_shards, prune_all, take_in};
use std::alloc::Global;

/// Shards, and how many groups of a window they took in, and how many of these they are pruned to.
#[derive(Drop)]
pub struct Shards {
    pub items: Vec<Shard>,
    pub taken: usize,
    pub floor: usize,
}

impl Shards {
    /// So many shards, without a vertex.
    pub fn empty(alloc: Global, count: u32, window: &Window) -> Result<Shards, NoMemory>
        requires some { 1 ≤ count }
        requires begun { IsBegun window.now }
        requires parted { window.now.shards ≡ count }
        ensures { IfOk result (λ shards. TellGroups window.now shards.taken shards.floor shards.items.items) }
    {
        window.sound();
        let items = make_shards(alloc, count)?;
        Ok(Shards {
            items,
            taken: 0,
            floor: 0,
        })
    }

    /// Takes in the groups of the window up to this one.
    pub fn take_in(&mut self, window: &Window, to: usize) -> Result<(), NoMemory>
        requires { TellGroups window.now self.old.taken self.old.floor self.old.items.items }
        ensures { OnOk result (TellGroups window.now self.new.taken self.new.floor self.new.items.items) }
    {
        for group in self.taken..to.min(window.len()) {
            take_in(&mut self.items, window, group)?;
            self.taken = group + 1;
        }
        Ok(())
    }

    /// Prunes the shards to the timestamp of a group that they took in.
    pub fn prune(&mut self, window: &Window, to: usize)
        requires { TellGroups window.now self.old.taken self.old.floor self.old.items.items }
        ensures { TellGroups window.now self.new.taken self.new.floor self.new.items.items }
    {
        self.floor = self.floor.max(to.min(self.taken));
        prune_all(&mut self.items, window.stamp_after(self.floor));
    }
}
