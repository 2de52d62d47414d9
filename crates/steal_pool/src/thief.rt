ghost use Rattle.std.specs.Prelude.{◌≡◌, OnOk, OnErr, IfErr};
ghost use Rattle.steal_pool.specs.meaning.Pool.{ThiefValue};

use crate::balance::{Puts, Takes};
use crate::parcel::unpack;
use crate::shared::{DequePass, DequeThief, QueuePass, Shared};
use crate::shut_word::{Reads, ShutPass};
use crate::{Again, Numbered, Parcel, Taken};
use crossbeam_deque::Steal;
use crossbeam_utils::Backoff;
use std::collections::LinkedList;
use std::marker::Model;
use std::sync::{Arc, Wait};

/// The side of a pool that takes tasks out. Each thread that works on tasks has one.
#[derive(Drop)]
pub struct Thief<T: Numbered> {
    pub(crate) stealer: DequeThief<T>,
    pub(crate) shared: Arc<Shared<T>>,
    pub(crate) deque_pass: DequePass<T>,
    pub(crate) queue_pass: QueuePass<T>,
    pub(crate) shut_pass: ShutPass,
    // The numbers of the tasks that it took and did not put back.
    pub(crate) numbers: LinkedList<u64>,
    pub(crate) knows_shut: bool,
    // How many looks found the deque empty, and the queue.
    pub(crate) empty_deques: u64,
    pub(crate) empty_queues: u64,
}

impl<T: Numbered> Model for Thief<T> {
    ghost use Rattle.std.specs.Prelude.{◌≡◌};
    ghost use Rattle.crossbeam_deque.specs.Handles.{stealer_deque, stealer_flavor, view as deque_view, IsPassOf};
    ghost use Rattle.crossbeam_deque.specs.Injected.{injector_view, IsInjectorPassOf};
    ghost use Rattle.crossbeam_utils.specs.Seq.{cell_view};
    ghost use Rattle.steal_pool.specs.meaning.Pool.{ThiefValue};
    ghost use Rattle.steal_pool.specs.storage.Sides.{IsThief};

    ghost Value = { ThiefValue };

    ghost view = { λ t. record {
      pool = record { deque = (stealer_deque t.stealer).0; queue = t.shared.value.queue.queue.web };
      taken = t.numbers;
      from_deque = (deque_view t.deque_pass).taken;
      from_queue = (injector_view t.queue_pass).taken;
      put_back = (injector_view t.queue_pass).put;
      knows_shut = t.knows_shut;
      empty_deques = t.empty_deques;
      empty_queues = t.empty_queues;
    } };

    ghost invariant = { λ t. IsThief (deque_view t.deque_pass) (injector_view t.queue_pass) (cell_view t.shut_pass) t.numbers t.knows_shut
        × (stealer_flavor t.stealer ≡ 0)
        × IsPassOf (stealer_deque t.stealer) t.deque_pass
        × IsInjectorPassOf t.shared.value.queue t.queue_pass
        × (t.shut_pass.table_id ≡ t.shared.value.shut.table.shared.table_id) };
}

// What one look at the deque, or at the queue, gives.
pub(crate) enum Look<T> {
    Task(T),
    Empty,
    // Another thread came between: look again.
    Retry,
}

impl<T: Numbered> Thief<T> {
    ghost use Rattle.std.specs.Prelude.{◌≡◌, true, OnOk, OnErr, IfErr};
    ghost use Rattle.steal_pool.specs.calls.Looks.{KeepsCounts, LooksAtDeque, LooksAtQueue};
    ghost use Rattle.steal_pool.specs.calls.Steals.{LooksAtBoth, Steals, StealsOnce, EndsIn, PutsBack};

    /// Takes the first task of the deque or, where that is empty, of the queue. Waits while both are empty
    /// and the feed is not known to be shut.
    pub fn steal<R: Wait>(&mut self, rt: &R) -> Taken<T>
        ensures answer { Steals T.number self.old result self.new }
        ensures counts { KeepsCounts self.old self.new }
    {
        let backoff = Backoff::new();
        for _ in rt.forever() {
            if let Some(taken) = self.try_steal(rt) {
                return taken;
            }
            backoff.snooze();
        }
        unreachable!()
    }

    /// Puts a task back at the end of the queue, in constant time, for any thief to take.
    pub fn again<R: Wait>(&mut self, rt: &R, task: T) -> Result<(), Again<T>>
        requires { EndsIn self.old.taken (T.number task) }
        ensures ok { OnOk result (PutsBack (T.number task) self.old self.new) }
        ensures err { OnErr result (self.new ≡ self.old) }
        ensures handed_back { IfErr result (λ e. e.task ≡ task) }
    {
        let at = self.numbers.len() - 1;
        let Ok(note) = self.numbers.split_off(at) else {
            return Err(Again { task });
        };
        let parcel = Parcel { task, note };
        match self
            .shared
            .queue
            .push_as::<Puts, R>(rt, &mut self.queue_pass, parcel)
        {
            Ok(()) => Ok(()),
            Err(parcel) => {
                let task = unpack(rt, parcel, &mut self.numbers);
                Err(Again { task })
            }
        }
    }

    fn try_steal<R: Wait>(&mut self, rt: &R) -> Option<Taken<T>>
        ensures answer { StealsOnce T.number self.old result self.new }
        ensures counts { KeepsCounts self.old self.new }
    {
        match self.look(rt) {
            Look::Task(task) => Some(Taken::Task(task)),
            Look::Retry => None,
            Look::Empty => {
                if self.is_told() {
                    return Some(Taken::Ended);
                }
                if self.read_shut(rt) {
                    return Some(Taken::Shut);
                }
                None
            }
        }
    }

    fn look<R: Wait>(&mut self, rt: &R) -> Look<T>
        ensures answer { LooksAtBoth T.number self.old result self.new }
        ensures counts { KeepsCounts self.old self.new }
    {
        match self.look_at_deque(rt) {
            Look::Empty => self.look_at_queue(rt),
            Look::Task(task) => Look::Task(task),
            Look::Retry => Look::Retry,
        }
    }

    fn look_at_deque<R: Wait>(&mut self, rt: &R) -> Look<T>
        ensures answer { LooksAtDeque T.number self.old result self.new }
        ensures counts { KeepsCounts self.old self.new }
    {
        match self.stealer.steal_as::<Takes>(&mut self.deque_pass) {
            Steal::Success(parcel) => Look::Task(unpack(rt, parcel, &mut self.numbers)),
            Steal::Empty => {
                self.empty_deques = self.empty_deques.saturating_add(1);
                Look::Empty
            }
            Steal::Retry => Look::Retry,
        }
    }

    fn look_at_queue<R: Wait>(&mut self, rt: &R) -> Look<T>
        ensures answer { LooksAtQueue T.number self.old result self.new }
        ensures counts { KeepsCounts self.old self.new }
    {
        match self
            .shared
            .queue
            .steal_as::<Takes, R>(rt, &mut self.queue_pass)
        {
            Steal::Success(parcel) => Look::Task(unpack(rt, parcel, &mut self.numbers)),
            Steal::Empty => {
                self.empty_queues = self.empty_queues.saturating_add(1);
                Look::Empty
            }
            Steal::Retry => Look::Retry,
        }
    }

    fn is_told(&self) -> bool
        ensures { result ≡ self.now.knows_shut }
    {
        self.knows_shut
    }

    // Reads the word that says that the feed is shut.
    fn read_shut<R: Wait>(&mut self, rt: &R) -> bool
        ensures { self.new ≡ record self.old { knows_shut = result } }
    {
        let word = self
            .shared
            .shut
            .load_as::<Reads, R>(rt, &mut self.shut_pass);
        self.knows_shut = word[0] == 1;
        self.knows_shut
    }
}
