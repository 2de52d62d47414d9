ghost use Rattle.std.specs.Prelude.{◌≡◌, ◌≤◌, ◌<◌, ◌+◌, ◌^◌, [], IsOk, IsSome, OnOk, OnErr, None, Some, length};
ghost use Rattle.mining_model.specs.meaning.NetChange.{net_change};
ghost use Rattle.mining_model.specs.meaning.Step.{graph_after, step as graph_step};
ghost use Rattle.update_rules.specs.calls.Steps.{Steps};
ghost use Rattle.update_rules.specs.meaning.Parts.{parts_between};
ghost use Rattle.group_window.specs.meaning.Windows.{CanPush, HasRoom, IsSound, StandsOn, ended, graph_of, most_groups, open_count, pushed, with_current, with_group};

use crate::differences::difference_by;
use crate::groups::{Group, OpenGroup};
use graph_types::{Net, NoMemory, Snapshot, Stamp, Update};
use std::alloc::Global;
use std::marker::Model;
use std::snapshot::Snapshot as Ghost;
use update_rules::{PartList, StepFault, admit, apply};

/// Groups of updates that follow one another, each with its net change and its parts, and at most one
/// group that is open. It has at most 4,096 groups, and a group at most 1,024 updates.
///
/// To end a group takes time by what the group touched, and not by the graph.
#[derive(Drop)]
pub struct Window {
    first: Stamp,
    shards: u32,
    groups: Vec<Group>,
    current: Option<OpenGroup>,
    alloc: Global,
}

impl Model for Window {
    ghost use Rattle.std.specs.Option.{option_map};
    ghost use Rattle.group_window.specs.meaning.Windows.{WindowValue, window_code};

    ghost Value = { WindowValue };

    ghost coded = { window_code };

    ghost use Rattle.group_window.specs.storage.Window.{IsKept, first_graph, graphs_after};

    ghost view = { λ w. record { first = w.first; shards = w.shards; base = first_graph w.groups.items; later = graphs_after w.groups.items; current = option_map (λ open_group. open_group.run) w.current } };

    ghost invariant = { λ w. IsKept w.first w.shards w.groups.items w.current };
}

impl Window {
    /// The window without a group, whose first one will have the timestamp after `first`. It takes its
    /// memory from `alloc`, and none yet.
    pub fn new(alloc: Global, first: Stamp, shards: u32) -> Window
        requires some_shard { 1 ≤ shards }
        requires first_in_range { first ≤ 10 ^ 19 }
        ensures { result ≡ record { first = first; shards = shards; base = None; later = []; current = None } }
    {
        Window {
            first,
            shards,
            groups: Vec::new(alloc),
            current: None,
            alloc,
        }
    }

    /// The window without a group whose first one will have the timestamp after the last one here. It keeps the memory of the
    /// list of groups.
    pub fn into_next(self) -> Window
        requires first_in_range { self.first + length self.later ≤ 10 ^ 19 }
        ensures { result ≡ record { first = self.first + length self.later; shards = self.shards; base = None; later = []; current = None } }
    {
        let first = self.stamp_after(self.len());
        let Window {
            shards,
            mut groups,
            alloc,
            ..
        } = self;
        groups.clear();
        Window {
            first,
            shards,
            groups,
            current: None,
            alloc,
        }
    }

    /// The timestamp before that of the first group.
    pub fn first(&self) -> Stamp
        ensures { result ≡ self.now.first }
    {
        self.first
    }

    /// How many groups there are, without one that is open.
    pub fn len(&self) -> usize
        ensures { result ≡ length self.now.later }
    {
        self.groups.len()
    }

    /// The timestamp of the last of so many groups, or that before the first of them.
    pub fn stamp_after(&self, groups: usize) -> Stamp
        requires { groups ≤ length self.now.later }
        ensures { result ≡ self.now.first + groups }
    {
        self.sound();
        Stamp(self.first().0 + groups as u64)
    }

    /// Says of a window what is true of each, and does nothing.
    pub fn sound(&self)
        ensures { IsSound self.now }
    {
        let _groups = &self.groups;
    }

    /// How many updates the open group has, or `None` where none is open.
    pub fn open_len(&self) -> Option<u32>
        ensures { result ≡ open_count self.now.current }
    {
        match &self.current {
            Some(group) => Some(group.len()),
            None => None,
        }
    }

    /// Opens a group. It takes no memory.
    pub fn begin_group(&mut self)
        requires closed { self.old.current ≡ None }
        requires room { length self.old.later < most_groups }
        ensures { self.new ≡ with_current self.old (Some None) }
    {
        self.current = Some(OpenGroup::new());
    }

    /// Drops the open group. The window is as it was before the group was opened.
    pub fn drop_group(&mut self)
        requires { IsSome self.old.current }
        ensures { self.new ≡ with_current self.old None }
    {
        self.current = None;
    }

    /// Steps the graph, and adds the update to the open group, or makes it a group of its own where none
    /// is open. A refusal leaves both as they were, and so does out of memory. Takes a few look-ups, and to
    /// remove a vertex a few for each of its edges.
    pub fn push(&mut self, graph: &mut Snapshot, update: &Update) -> Result<(), StepFault>
        requires { CanPush self.old graph.old }
        ensures steps { Steps graph.old update.now result graph.new }
        ensures ok { OnOk result (self.new ≡ pushed self.old self.old.current graph.old graph.new) }
        ensures err { OnErr result (self.new ≡ self.old) }
        ensures stands { StandsOn self.new graph.new }
    {
        if let Err(why) = admit(graph, update) {
            return Err(StepFault::Refused(why));
        }
        self.push_accepted(graph, update)?;
        Ok(())
    }

    /// Steps the graph as `push` does, by an update that it accepts. Out of memory leaves both as they were.
    pub fn push_accepted(&mut self, graph: &mut Snapshot, update: &Update) -> Result<(), NoMemory>
        requires accepted { IsOk (graph_step graph.old update.now) }
        requires free { CanPush self.old graph.old }
        ensures graph { OnOk result (graph.new ≡ graph_after graph.old update.now) }
        ensures ok { OnOk result (self.new ≡ pushed self.old self.old.current graph.old graph.new) }
        ensures graph_err { OnErr result (graph.new ≡ graph.old) }
        ensures err { OnErr result (self.new ≡ self.old) }
        ensures stands { StandsOn self.new graph.new }
    {
        self.push_anywhere(graph, update)?;
        Ok(())
    }

    /// Ends the open group on the graph that its updates led to. Takes a few look-ups for each entry that
    /// they touched. Out of memory leaves the window as it was.
    pub fn end_group(&mut self, graph: &Snapshot) -> Result<(), NoMemory>
        requires is_open { IsSome self.old.current }
        requires stands { StandsOn self.old graph.now }
        ensures ok { OnOk result (self.new ≡ ended self.old self.old.current graph.now) }
        ensures err { OnErr result (self.new ≡ self.old) }
        ensures stands { StandsOn self.new graph.now }
    {
        let Some(group) = &self.current else {
            unreachable!()
        };
        let difference = group.difference(self.alloc, graph, self.shards)?;
        self.groups.reserve(1)?;
        let Some(group) = self.current.take() else {
            unreachable!()
        };
        let before = group.into_before(graph);
        graph.simple();
        let after = Ghost::of(graph);
        self.groups.push_reserved(Group {
            before,
            after,
            difference,
        });
        Ok(())
    }

    /// The net change of group `i`, counted from 0.
    pub fn net(&self, i: usize) -> &Net
        requires { i < length self.now.later }
        ensures { result.now ≡ net_change (graph_of self.now i) (graph_of self.now (i + 1)) }
    {
        &self.groups[i].difference.net
    }

    /// The parts of group `i`, counted from 0.
    pub fn parts_of(&self, i: usize) -> &PartList
        requires { i < length self.now.later }
        ensures { result.now ≡ parts_between (graph_of self.now i) (graph_of self.now (i + 1)) self.now.shards }
    {
        &self.groups[i].difference.parts
    }

    fn push_anywhere(&mut self, graph: &mut Snapshot, update: &Update) -> Result<(), NoMemory>
        requires accepted { IsOk (graph_step graph.old update.now) }
        requires free { CanPush self.old graph.old }
        ensures graph { OnOk result (graph.new ≡ graph_after graph.old update.now) }
        ensures ok { OnOk result (self.new ≡ pushed self.old self.old.current graph.old graph.new) }
        ensures graph_err { OnErr result (graph.new ≡ graph.old) }
        ensures err { OnErr result (self.new ≡ self.old) }
    {
        match &mut self.current {
            Some(group) => group.push(self.alloc, graph, update),
            None => self.push_group(graph, update),
        }
    }

    fn push_group(&mut self, graph: &mut Snapshot, update: &Update) -> Result<(), NoMemory>
        requires accepted { IsOk (graph_step graph.old update.now) }
        requires closed { self.old.current ≡ None }
        requires stands { StandsOn self.old graph.old }
        requires room { length self.old.later < most_groups }
        ensures graph { OnOk result (graph.new ≡ graph_after graph.old update.now) }
        ensures ok { OnOk result (self.new ≡ with_group self.old graph.old graph.new) }
        ensures graph_err { OnErr result (graph.new ≡ graph.old) }
        ensures err { OnErr result (self.new ≡ self.old) }
    {
        let difference = difference_by(self.alloc, graph, update, self.shards)?;
        self.groups.reserve(1)?;
        graph.simple();
        let before = Ghost::of(graph);
        apply(graph, update)?;
        graph.simple();
        let after = Ghost::of(graph);
        self.groups.push_reserved(Group {
            before,
            after,
            difference,
        });
        Ok(())
    }
}
