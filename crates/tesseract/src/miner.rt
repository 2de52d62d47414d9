ghost use Rattle.std.specs.Prelude.{◌≡◌, IfOk};
ghost use Rattle.command_words.specs.meaning.Ranges.{AreDigits as AreFewDigits};
ghost use Rattle.cond_eval.specs.meaning.Patterns.{pattern_of};
ghost use Rattle.graph_types.specs.meaning.Graph.{Graph};
ghost use Rattle.window_miner.specs.calls.Mining.{CanMine, FollowsShards, IsMined};

use filter_polarity::Program;
use graph_types::NoMemory;
use group_window::Window;
use rehearsal::{Rehearsed, rehearse};
use shard_state::Shard;
use std::alloc::Global;
use std::marker::Model;
use window_miner::{Mined, Pass, mine_groups};

/// What mines the groups of one window after another.
pub trait Miner {
    /// Finds what each group of a window takes away and brings, of which at most `most` pieces are listed. Out of memory
    /// takes the shards along.
    fn mine(
        &self,
        alloc: Global,
        shards: Vec<Shard>,
        window: &Window,
        program: &Program,
        most: u32,
    ) -> Result<Mined, NoMemory>
        requires { CanMine window.now shards.items }
        ensures { (g : Graph) → FollowsShards window.now shards.items g →
            IfOk result (IsMined (pattern_of program.now) most window.now g) };
}

/// The thread that calls, which passes each point of a window.
#[derive(Drop)]
pub struct OneThread<P> {
    pub pass: P,
}

impl<P: Pass> Miner for OneThread<P> {
    fn mine(
        &self,
        alloc: Global,
        shards: Vec<Shard>,
        window: &Window,
        program: &Program,
        most: u32,
    ) -> Result<Mined, NoMemory> {
        mine_groups(&self.pass, alloc, shards, window, program, most)
    }
}

/// The machine of shards, tasks, stamps and prunes, on one thread, its events in the order that digits choose.
#[derive(Drop)]
pub struct Rehearsal<'a> {
    digits: &'a [u8],
}

impl<'a> Model for Rehearsal<'a> {
    ghost use Rattle.std.specs.Prelude.{List, ℕ};
    ghost use Rattle.rehearsal.specs.meaning.Schedules.{AreDigits};

    ghost Value = { List ℕ };

    ghost view = { λ r. r.digits.now };

    ghost invariant = { λ r. AreDigits r.digits.now };
}

impl<'a> Rehearsal<'a> {
    /// The order that these digits choose. Each window begins with the first of them.
    pub fn of(digits: &'a [u8]) -> Rehearsal<'a>
        requires { AreFewDigits 4096 digits.now }
        ensures { result ≡ digits.now }
    {
        Rehearsal { digits }
    }
}

impl<'a> Miner for Rehearsal<'a> {
    fn mine(
        &self,
        alloc: Global,
        shards: Vec<Shard>,
        window: &Window,
        program: &Program,
        most: u32,
    ) -> Result<Mined, NoMemory> {
        let Rehearsed { mined, .. } = rehearse(alloc, shards, window, program, most, self.digits)?;
        Ok(mined)
    }
}
