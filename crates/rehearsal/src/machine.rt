ghost use Rattle.std.specs.Prelude.{◌≡◌, ◌↔◌, ◌<◌, ◌≤◌, ◌+◌, ℕ, Bool, IfOk, OnOk, OnErr, Err, true, false, length, replicate};
ghost use Rattle.std.specs.Option.{option_copied};
ghost use Rattle.cond_eval.specs.meaning.Patterns.{pattern_of};
ghost use Rattle.mining_model.specs.meaning.Embeddings.{Pattern};
ghost use Rattle.delta_task.specs.calls.Deltas.{IsDelta};
ghost use Rattle.graph_types.specs.meaning.Graph.{Graph};
ghost use Rattle.group_window.specs.meaning.Windows.{graph_of};
ghost use Rattle.rehearsal.specs.calls.Tasks.{is_so_far};
ghost use Rattle.rehearsal.specs.declared.event.Event.TheVariants as event;
ghost use Rattle.rehearsal.specs.declared.task.Task.TheVariants as task;
ghost use Rattle.rehearsal.specs.meaning.MachineState.{Stage, first_state, state_of};
ghost use Rattle.rehearsal.specs.meaning.Shown.{moves_of, shown};
ghost use Rattle.rehearsal.specs.meaning.Soundness.{HaveFound, IsSoundMachine, IsSoundState, graphs_from};
ghost use Rattle.rehearsal.specs.meaning.Table.{after, are_for, enabled, group_of, group_parts, has_group, holds, is_home, may, next_parts, task_is};
ghost use Rattle.shard_events.specs.meaning.Events.{LeadTo};
ghost use Rattle.window_miner.specs.calls.Mining.{CanMine, FollowsShards};

use crate::event::Event;
use crate::listing::all_events;
use crate::task::Task;
use delta_task::{Delta, DeltaStop, delta_of};
use filter_polarity::Program;
use graph_types::{List, NoMemory, Stamp};
use group_window::Window;
use shard_events::laws::each_event_keeps_the_rule;
use shard_state::{OwnedView, Shard};
use std::alloc::Global;
use update_rules::Part;

/// The machine of a window, between two events. Groups are counted from the window's first.
#[derive(Drop)]
pub struct Machine {
    pub shards: Vec<Shard>,
    pub tasks: Vec<Task>,
    /// The shards that the ingest and the watch hold.
    pub ingest: Option<u32>,
    pub watch: Option<u32>,
    /// How many parts of the next group the shards took in.
    pub parts: usize,
    pub stamped: usize,
    /// How many of the first tasks the watch knows to be finished, up to which group shards may be pruned, and up to
    /// which one the watch prunes them.
    pub known: usize,
    pub front: usize,
    pub seen: usize,
}

/// Why an event did not happen. The machine is as it was.
#[derive(Clone, Copy, Debug, PartialEq, Eq)]
pub enum MachineStop {
    /// It may not happen now: exactly where it isn't among the enabled ones.
    Disabled,
    /// Out of memory.
    NoMemory,
}

impl From<NoMemory> for MachineStop {
    ghost use Rattle.rehearsal.specs.declared.machine.MachineStop.TheVariants as stop;

    ghost from_gives = { λ _ e. e ≡ stop.NoMemory };

    fn from(_error: NoMemory) -> MachineStop {
        MachineStop::NoMemory
    }
}

impl Machine {
    /// The machine of a window before its first event.
    pub fn new(alloc: Global, shards: Vec<Shard>, window: &Window) -> Result<Machine, NoMemory>
        requires { CanMine window.now shards.items }
        ensures state { IfOk result (λ machine. state_of machine ≡ first_state window.now shards.items) }
        ensures sound { (pattern : Pattern) (most : ℕ) (g : Graph) → FollowsShards window.now shards.items g →
            IfOk result (IsSoundMachine pattern most window.now g) }
    {
        window.sound();
        each_event_keeps_the_rule();
        Ok(Machine {
            shards,
            tasks: waiting_tasks(alloc, window.len())?,
            ingest: None,
            watch: None,
            parts: 0,
            stamped: 0,
            known: 0,
            front: 0,
            seen: 0,
        })
    }

    /// Whether an event may happen. Takes constant time.
    pub fn may(&self, window: &Window, event: &Event) -> bool
        requires { (g : Graph) × IsSoundState window.now g (state_of self.now) }
        ensures { result ≡ may window.now (state_of self.now) event.now }
    {
        match event {
            Event::IngestPut(s) => holds(self.ingest, *s),
            Event::IngestTake(s) => self.may_ingest(window, *s),
            Event::Stamp => self.may_stamp(window),
            Event::Begin(t) => self.may_begin(window, *t),
            Event::Explore(t) => self.may_explore(window, *t),
            Event::Finish(t) => self.may_finish(window, *t),
            Event::SeeDone(t) => self.may_see_done(window, *t),
            Event::Raise => self.front < self.known,
            Event::SeeFront => self.seen < self.front,
            Event::PrunePut(s) => holds(self.watch, *s),
            Event::PruneTake(s) => self.may_prune(window, *s),
        }
    }

    /// The events that may happen, in the order in which they are listed. Takes time linear in the number of shards and of
    /// groups.
    pub fn enabled(&self, alloc: Global, window: &Window) -> Result<List<Event>, NoMemory>
        requires { (g : Graph) × IsSoundState window.now g (state_of self.now) }
        ensures { IfOk result (λ events. events ≡ enabled window.now (state_of self.now)) }
    {
        window.sound();
        let all = all_events(alloc, window, self.shards[0].shards())?;
        let mut events = List::new(alloc);
        for event in all.as_slice() {
            if self.may(window, event) {
                events.push(*event)?;
            }
        }
        Ok(events)
    }

    /// Lets an event happen.
    ///
    /// A task explores as the search does from its group's change; all else takes the time of the shard's call, or
    /// constant time.
    pub fn step(
        &mut self,
        alloc: Global,
        window: &Window,
        program: &Program,
        most: u32,
        event: &Event,
    ) -> Result<(), MachineStop>
        requires { (g : Graph) × IsSoundMachine (pattern_of program.now) most window.now g self.old }
        ensures disabled { result ≡ Err MachineStop.Disabled ↔ may window.now (state_of self.old) event.now ≡ false }
        ensures ok { OnOk result (state_of self.new ≡ after window.now (state_of self.old) event.now) }
        ensures err { OnErr result (self.new ≡ self.old) }
        ensures moves { (g : Graph) → IsSoundState window.now g (state_of self.old) →
            OnOk result (LeadTo (graphs_from window.now g) (shown window.now (state_of self.old))
            (moves_of window.now (state_of self.old) event.now) (shown window.now (state_of self.new))) }
        ensures sound { (g : Graph) → IsSoundMachine (pattern_of program.now) most window.now g self.old →
            IsSoundMachine (pattern_of program.now) most window.now g self.new }
    {
        window.sound();
        each_event_keeps_the_rule();
        if !self.may(window, event) {
            return Err(MachineStop::Disabled);
        }
        self.happen(alloc, window, program, most, event)?;
        Ok(())
    }

    // Lets an event happen that may.
    fn happen(
        &mut self,
        alloc: Global,
        window: &Window,
        program: &Program,
        most: u32,
        event: &Event,
    ) -> Result<(), NoMemory>
        requires sound { (g : Graph) × IsSoundMachine (pattern_of program.now) most window.now g self.old }
        requires may { may window.now (state_of self.old) event.now ≡ true }
        ensures ok { OnOk result (state_of self.new ≡ after window.now (state_of self.old) event.now) }
        ensures found { OnOk result (HaveFound (pattern_of program.now) most window.now self.new.tasks.items) }
        ensures err { OnErr result (self.new ≡ self.old) }
    {
        match event {
            Event::IngestPut(s) => self.put_part(window, *s),
            Event::IngestTake(s) => {
                self.ingest = Some(*s);
                Ok(())
            }
            Event::Stamp => {
                self.stamped += 1;
                self.parts = 0;
                Ok(())
            }
            Event::Begin(t) => {
                self.begin(window, *t);
                Ok(())
            }
            Event::Explore(t) => self.explore(alloc, window, program, most, *t),
            Event::Finish(t) => {
                self.finish(window, *t);
                Ok(())
            }
            Event::SeeDone(_) => {
                self.known += 1;
                Ok(())
            }
            Event::Raise => {
                self.front = self.known;
                Ok(())
            }
            Event::SeeFront => {
                self.seen = self.front;
                Ok(())
            }
            Event::PrunePut(s) => {
                self.put_pruned(window, *s);
                Ok(())
            }
            Event::PruneTake(s) => {
                self.watch = Some(*s);
                Ok(())
            }
        }
    }

    // The parts of the next group that no shard took in yet.
    fn next_parts<'w>(&self, window: &'w Window) -> &'w [Part]
        requires { self.now.parts ≤ length (group_parts window.now (state_of self.now)) }
        ensures { result.now ≡ next_parts window.now (state_of self.now) }
    {
        if self.stamped < window.len() {
            &window.parts_of(self.stamped).as_slice()[self.parts..]
        } else {
            &[]
        }
    }

    // The task of a timestamp, where there is one.
    fn task(&self, window: &Window, t: Stamp) -> Option<&Task>
        requires { length self.now.tasks.items ≡ length window.now.later }
        ensures { (is : Stage → Bool) → task_is window.now (state_of self.now) is t ≡ is_so_far is (option_copied result) }
    {
        if has_group(window, t) {
            self.tasks.get(group(window, t))
        } else {
            None
        }
    }

    fn is_home(&self, s: u32) -> bool
        ensures { result ≡ is_home (state_of self.now) s }
    {
        !holds(self.ingest, s) && !holds(self.watch, s)
    }

    fn may_ingest(&self, window: &Window, s: u32) -> bool
        requires { self.now.parts ≤ length (group_parts window.now (state_of self.now)) }
        ensures { result ≡ may window.now (state_of self.now) (event.IngestTake s) }
    {
        self.ingest.is_none() && are_for(self.next_parts(window), s) && self.is_home(s)
    }

    fn may_stamp(&self, window: &Window) -> bool
        requires { self.now.parts ≤ length (group_parts window.now (state_of self.now)) }
        ensures { result ≡ may window.now (state_of self.now) event.Stamp }
    {
        self.ingest.is_none() && self.stamped < window.len() && self.next_parts(window).is_empty()
    }

    fn may_begin(&self, window: &Window, t: Stamp) -> bool
        requires tasks { length self.now.tasks.items ≡ length window.now.later }
        requires stamped { self.now.stamped ≤ length window.now.later }
        ensures { result ≡ may window.now (state_of self.now) (event.Begin t) }
    {
        match self.task(window, t) {
            Some(Task::Waiting) => t <= window.stamp_after(self.stamped),
            _ => false,
        }
    }

    fn may_explore(&self, window: &Window, t: Stamp) -> bool
        requires { length self.now.tasks.items ≡ length window.now.later }
        ensures { result ≡ may window.now (state_of self.now) (event.Explore t) }
    {
        match self.task(window, t) {
            Some(Task::Live) => self.ingest.is_none() && self.watch.is_none(),
            _ => false,
        }
    }

    fn may_finish(&self, window: &Window, t: Stamp) -> bool
        requires { length self.now.tasks.items ≡ length window.now.later }
        ensures { result ≡ may window.now (state_of self.now) (event.Finish t) }
    {
        matches!(self.task(window, t), Some(Task::Explored(_)))
    }

    fn may_see_done(&self, window: &Window, t: Stamp) -> bool
        requires tasks { length self.now.tasks.items ≡ length window.now.later }
        requires known { self.now.known ≤ length window.now.later }
        ensures { result ≡ may window.now (state_of self.now) (event.SeeDone t) }
    {
        match self.task(window, t) {
            Some(Task::Finished(_)) => {
                self.known < window.len() && t == window.stamp_after(self.known + 1)
            }
            _ => false,
        }
    }

    // Whether the watch may take a shard: it holds none, the shard is at home, and not pruned to the front that it saw.
    fn may_prune(&self, window: &Window, s: u32) -> bool
        requires { self.now.seen ≤ length window.now.later }
        ensures { result ≡ may window.now (state_of self.now) (event.PruneTake s) }
    {
        self.watch.is_none()
            && self.is_home(s)
            && (s as usize) < self.shards.len()
            && self.shards[s as usize].floor() < window.stamp_after(self.seen)
    }

    // Puts the shard that the ingest holds back, with its part of the next group.
    fn put_part(&mut self, window: &Window, s: u32) -> Result<(), NoMemory>
        requires sound { (g : Graph) × IsSoundState window.now g (state_of self.old) }
        requires may { may window.now (state_of self.old) (event.IngestPut s) ≡ true }
        ensures ok { OnOk result (state_of self.new ≡ after window.now (state_of self.old) (event.IngestPut s)) }
        ensures err { OnErr result (self.new ≡ self.old) }
        ensures tasks { self.new.tasks ≡ self.old.tasks }
    {
        window.sound();
        let [part, ..] = self.next_parts(window) else {
            unreachable!();
        };
        let at = window.stamp_after(self.stamped + 1);
        self.shards[s as usize].apply(part, at)?;
        self.ingest = None;
        self.parts += 1;
        Ok(())
    }

    fn begin(&mut self, window: &Window, t: Stamp)
        requires tasks { length self.old.tasks.items ≡ length window.now.later }
        requires may { may window.now (state_of self.old) (event.Begin t) ≡ true }
        ensures state { state_of self.new ≡ after window.now (state_of self.old) (event.Begin t) }
        ensures found { (pattern : Pattern) (most : ℕ) → HaveFound pattern most window.now self.old.tasks.items →
            HaveFound pattern most window.now self.new.tasks.items }
    {
        self.tasks[group(window, t)] = Task::Live;
    }

    // A live task finds what its group takes away and brings.
    fn explore(
        &mut self,
        alloc: Global,
        window: &Window,
        program: &Program,
        most: u32,
        t: Stamp,
    ) -> Result<(), NoMemory>
        requires sound { (g : Graph) × IsSoundState window.now g (state_of self.old) }
        requires may { may window.now (state_of self.old) (event.Explore t) ≡ true }
        ensures ok { OnOk result (state_of self.new ≡ after window.now (state_of self.old) (event.Explore t)) }
        ensures found { HaveFound (pattern_of program.now) most window.now self.old.tasks.items →
            HaveFound (pattern_of program.now) most window.now self.new.tasks.items }
        ensures err { OnErr result (self.new ≡ self.old) }
    {
        let group = group(window, t);
        let delta = self.delta_of_group(alloc, window, program, most, group)?;
        self.tasks[group] = Task::Explored(delta);
        Ok(())
    }

    // What a group takes away and brings, whose task is live.
    fn delta_of_group(
        &self,
        alloc: Global,
        window: &Window,
        program: &Program,
        most: u32,
        group: usize,
    ) -> Result<Delta, NoMemory>
        requires within { group < length window.now.later }
        requires sound { (g : Graph) × IsSoundState window.now g (state_of self.now) }
        requires may { may window.now (state_of self.now) (event.Explore (window.now.first + (group + 1))) ≡ true }
        ensures { IfOk result (IsDelta (pattern_of program.now) (graph_of window.now group) (graph_of window.now (group + 1)) most) }
    {
        window.sound();
        let mut view = OwnedView::new(&self.shards, window.stamp_after(group + 1));
        match delta_of(alloc, program, window.net(group), &mut view, most) {
            Ok(delta) => Ok(delta),
            Err(DeltaStop::NoMemory) => Err(NoMemory),
            Err(DeltaStop::Held(_)) => unreachable!(),
        }
    }

    fn finish(&mut self, window: &Window, t: Stamp)
        requires tasks { length self.old.tasks.items ≡ length window.now.later }
        requires may { may window.now (state_of self.old) (event.Finish t) ≡ true }
        ensures state { state_of self.new ≡ after window.now (state_of self.old) (event.Finish t) }
        ensures found { (pattern : Pattern) (most : ℕ) → HaveFound pattern most window.now self.old.tasks.items →
            HaveFound pattern most window.now self.new.tasks.items }
    {
        self.tasks[group(window, t)].finish();
    }

    // Puts the shard that the watch holds back, pruned to the front that it saw.
    fn put_pruned(&mut self, window: &Window, s: u32)
        requires sound { (g : Graph) × IsSoundState window.now g (state_of self.old) }
        requires may { may window.now (state_of self.old) (event.PrunePut s) ≡ true }
        ensures state { state_of self.new ≡ after window.now (state_of self.old) (event.PrunePut s) }
        ensures tasks { self.new.tasks ≡ self.old.tasks }
    {
        self.shards[s as usize].prune(window.stamp_after(self.seen));
        self.watch = None;
    }
}

fn waiting_tasks(alloc: Global, count: usize) -> Result<Vec<Task>, NoMemory>
    ensures { IfOk result (λ tasks. tasks.items ≡ replicate count task.Waiting) }
{
    let mut tasks = Vec::new(alloc);
    for _ in 0..count {
        tasks.push(Task::Waiting)?;
    }
    Ok(tasks)
}

// Whether an actor that holds a shard, or none, holds this one.
fn holds(held: Option<u32>, s: u32) -> bool
    ensures { result ≡ holds held s }
{
    match held {
        Some(r) => r == s,
        None => false,
    }
}

// Whether the first of some parts is for this shard.
fn are_for(parts: &[Part], s: u32) -> bool
    ensures { result ≡ are_for parts.now s }
{
    match parts {
        [part, ..] => part.shard == s,
        [] => false,
    }
}

fn has_group(window: &Window, t: Stamp) -> bool
    ensures { result ≡ has_group window.now t }
{
    window.first() < t && t <= window.stamp_after(window.len())
}

// The group of a timestamp, counted from 0.
fn group(window: &Window, t: Stamp) -> usize
    requires { has_group window.now t ≡ true }
    ensures { result ≡ group_of window.now t }
{
    window.sound();
    (t.0 - window.first().0 - 1) as usize
}
