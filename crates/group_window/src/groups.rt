ghost use Rattle.std.specs.Prelude.{◌≡◌, ◌≤◌, ◌<◌, IsOk, IfOk, IfSome, OnOk, OnErr, None, Some};
ghost use Rattle.graph_types.specs.meaning.Simple.{IsSimple};
ghost use Rattle.mining_model.specs.meaning.Step.{graph_after, step as graph_step};
ghost use Rattle.group_window.specs.calls.Differences.{IsDifference};
ghost use Rattle.group_window.specs.meaning.Windows.{graph_before, most_updates, update_count, with_update};

use crate::differences::{Difference, difference_of_changes};
use crate::earlier::keep_each;
use graph_types::{NoMemory, Snapshot, Update};
use std::alloc::Global;
use std::marker::Model;
use std::snapshot::Snapshot as Ghost;
use update_rules::{Entries, apply, changes_since, written_by};

/// A group that was ended: what it changed, and the graphs before and after it, which take no bytes.
#[derive(Drop)]
pub(crate) struct Group {
    pub before: Ghost<Snapshot>,
    pub after: Ghost<Snapshot>,
    pub difference: Difference,
}

/// A group that is open, with its updates so far, if it has any.
#[derive(Drop)]
pub(crate) struct OpenGroup {
    pub run: Option<Run>,
}

/// Updates that follow one another: how many, and the graphs before and after them, which take no bytes.
/// Of each entry that they touched it keeps what stood there before.
#[derive(Drop)]
pub(crate) struct Run {
    len: u32,
    before: Ghost<Snapshot>,
    after: Ghost<Snapshot>,
    earlier: Entries,
}

impl Model for Run {
    ghost use Rattle.group_window.specs.meaning.Windows.{RunValue, run_code};

    ghost Value = { RunValue };

    ghost coded = { run_code };

    ghost use Rattle.group_window.specs.storage.Run.{Remembers};

    ghost view = { λ r. record { len = r.len; before = r.before.value; after = r.after.value } };

    ghost invariant = { λ r. Remembers r.earlier r.before.value r.after.value };
}

impl OpenGroup {
    /// The group without an update. It takes no memory.
    pub(crate) fn new() -> OpenGroup
        ensures { result ≡ record { run = None } }
    {
        OpenGroup { run: None }
    }

    pub(crate) fn len(&self) -> u32
        ensures { result ≡ update_count self.now.run }
    {
        match &self.run {
            Some(run) => run.len(),
            None => 0,
        }
    }

    /// Steps the graph, which accepts the update. Out of memory changes nothing.
    pub(crate) fn push(
        &mut self,
        alloc: Global,
        graph: &mut Snapshot,
        update: &Update,
    ) -> Result<(), NoMemory>
        requires accepted { IsOk (graph_step graph.old update.now) }
        requires stands { IfSome self.old.run (λ run. graph.old ≡ run.after) }
        requires room { update_count self.old.run < most_updates }
        ensures graph { OnOk result (graph.new ≡ graph_after graph.old update.now) }
        ensures ok { OnOk result (self.new ≡ record { run = Some (with_update self.old.run graph.old graph.new) }) }
        ensures graph_err { OnErr result (graph.new ≡ graph.old) }
        ensures err { OnErr result (self.new ≡ self.old) }
    {
        match &mut self.run {
            Some(run) => run.push(alloc, graph, update),
            None => {
                self.run = Some(Run::begun(alloc, graph, update)?);
                Ok(())
            }
        }
    }

    /// What the group changed, where the graph is the one after it. Takes a few look-ups for each entry that
    /// its updates touched.
    pub(crate) fn difference(
        &self,
        alloc: Global,
        graph: &Snapshot,
        shards: u32,
    ) -> Result<Difference, NoMemory>
        requires stands { IfSome self.now.run (λ run. graph.now ≡ run.after) }
        requires some_shard { 1 ≤ shards }
        ensures { IfOk result (λ difference. IsDifference shards difference (graph_before self.now.run graph.now) graph.now) }
    {
        match &self.run {
            Some(run) => run.difference(alloc, graph, shards),
            None => Run::new(alloc, graph).difference(alloc, graph, shards),
        }
    }

    /// The graph before the group, where the graph is the one after it.
    pub(crate) fn into_before(self, graph: &Snapshot) -> Ghost<Snapshot>
        ensures before { result.value ≡ graph_before self.run graph.now }
        ensures simple { IsSimple result.value }
    {
        graph.simple();
        match self.run {
            Some(run) => run.into_before(),
            None => Ghost::of(graph),
        }
    }
}

impl Run {
    /// No updates, from the graph on. It takes no memory.
    fn new(alloc: Global, graph: &Snapshot) -> Run
        ensures { result ≡ record { len = 0; before = graph.now; after = graph.now } }
    {
        graph.simple();
        Run {
            len: 0,
            before: Ghost::of(graph),
            after: Ghost::of(graph),
            earlier: Entries::new(alloc),
        }
    }

    /// The update alone, which the graph accepts, and which is made in it. Out of memory changes nothing.
    fn begun(alloc: Global, graph: &mut Snapshot, update: &Update) -> Result<Run, NoMemory>
        requires { IsOk (graph_step graph.old update.now) }
        ensures graph { OnOk result (graph.new ≡ graph_after graph.old update.now) }
        ensures ok { IfOk result (λ run. run ≡ with_update None graph.old graph.new) }
        ensures err { OnErr result (graph.new ≡ graph.old) }
    {
        let mut run = Run::new(alloc, graph);
        run.push(alloc, graph, update)?;
        Ok(run)
    }

    fn len(&self) -> u32
        ensures { result ≡ self.now.len }
    {
        self.len
    }

    /// Steps the graph, which accepts the update. Out of memory changes nothing that shows.
    fn push(&mut self, alloc: Global, graph: &mut Snapshot, update: &Update) -> Result<(), NoMemory>
        requires accepted { IsOk (graph_step graph.old update.now) }
        requires stands { graph.old ≡ self.old.after }
        requires room { self.old.len < most_updates }
        ensures graph { OnOk result (graph.new ≡ graph_after graph.old update.now) }
        ensures ok { OnOk result (self.new ≡ with_update (Some self.old) graph.old graph.new) }
        ensures graph_err { OnErr result (graph.new ≡ graph.old) }
        ensures err { OnErr result (self.new ≡ self.old) }
    {
        let entries = written_by(alloc, graph, update)?;
        keep_each(&mut self.earlier, graph, &entries)?;
        apply(graph, update)?;
        self.after = Ghost::of(graph);
        self.len += 1;
        Ok(())
    }

    fn difference(
        &self,
        alloc: Global,
        graph: &Snapshot,
        shards: u32,
    ) -> Result<Difference, NoMemory>
        requires stands { graph.now ≡ self.now.after }
        requires some_shard { 1 ≤ shards }
        ensures { IfOk result (λ difference. IsDifference shards difference self.now.before graph.now) }
    {
        graph.simple();
        let changes = changes_since(alloc, &self.earlier, graph)?;
        difference_of_changes(alloc, &changes, shards)
    }

    fn into_before(self) -> Ghost<Snapshot>
        ensures before { result.value ≡ self.before }
        ensures simple { IsSimple result.value }
    {
        self.before
    }
}
