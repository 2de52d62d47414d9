ghost use Rattle.std.specs.Prelude.{◌≡◌, ◌+◌, [], OnOk};
ghost use Rattle.steal_pool.specs.storage.Balance.{all_parts};
ghost use Rattle.steal_pool.specs.storage.Books.{BooksValue};

use crate::balance::{Part, Takes};
use crate::shared::{DequeOwner, QueuePass, Shared};
use crate::thief::Look;
use crate::{Feed, Numbered, TaskList, Thief};
use crossbeam_deque::Steal;
use graph_types::NoMemory;
use std::marker::Model;
use std::sync::{Arc, Wait};

// A pool whose passes come back.
#[derive(Drop)]
pub struct Books<T: Numbered> {
    deque: DequeOwner<T>,
    shared: Arc<Shared<T>>,
    queue_pass: QueuePass<T>,
}

impl<T: Numbered> Model for Books<T> {
    ghost use Rattle.crossbeam_deque.specs.Handles.{worker_deque, worker_flavor, worker_view};
    ghost use Rattle.crossbeam_deque.specs.Injected.{injector_view, IsInjectorPassOf};
    ghost use Rattle.steal_pool.specs.storage.Books.{BooksValue, IsBooks};

    ghost Value = { BooksValue };

    ghost view = { λ b. record {
      pool = record { deque = (worker_deque b.deque).0; queue = b.shared.value.queue.queue.web };
      parts = (worker_view b.deque).parts;
      fed = (worker_view b.deque).put;
      from_deque = (worker_view b.deque).taken;
      from_queue = (injector_view b.queue_pass).taken;
      put_back = (injector_view b.queue_pass).put;
    } };

    ghost invariant = { λ b. IsBooks (worker_view b.deque) (injector_view b.queue_pass) (worker_flavor b.deque)
        × IsInjectorPassOf b.shared.value.queue b.queue_pass };
}

impl<T: Numbered> Books<T> {
    ghost use Rattle.steal_pool.specs.calls.Settling.{AddsUp, with_thief, WeighsSame, PopsDeque, PopsQueue, MovesFromDeque, MovesFromQueue};

    pub fn open(feed: Feed<T>) -> Books<T>
        ensures books { result ≡ record { pool = feed.pool; parts = result.parts; fed = feed.fed; from_deque = []; from_queue = []; put_back = [] } }
        ensures parts { result.parts + feed.thieves ≡ all_parts }
    {
        let Feed {
            deque,
            shared,
            queue_pass,
            shut_pass: _,
            notes: _,
        } = feed;
        Books {
            deque,
            shared,
            queue_pass,
        }
    }

    // Takes a thief's passes back.
    pub fn add(&mut self, thief: Thief<T>)
        requires { thief.pool ≡ self.old.pool }
        ensures books { self.new ≡ with_thief self.old thief }
        ensures adds_up { AddsUp thief }
    {
        let Thief {
            stealer: _,
            shared: _,
            deque_pass,
            queue_pass,
            shut_pass: _,
            numbers: _,
            knows_shut: _,
            empty_deques: _,
            empty_queues: _,
        } = thief;
        self.deque.absorb::<Part>(deque_pass);
        self.shared
            .queue
            .absorb::<Part>(&mut self.queue_pass, queue_pass);
    }

    // Moves what the deque has to what is left.
    pub fn drain_deque<R: Wait>(&mut self, rt: &R, left: &mut TaskList<T>) -> Result<(), NoMemory>
        requires { self.old.parts ≡ all_parts }
        ensures moved { OnOk result (MovesFromDeque T.number self.old left.old self.new left.new) }
        ensures all { OnOk result (WeighsSame self.new.fed self.new.from_deque) }
    {
        for _ in rt.forever() {
            match self.pop_deque() {
                Some(task) => left.push(task)?,
                None => return Ok(()),
            }
        }
        unreachable!()
    }

    // Moves what the queue has to what is left.
    pub fn drain_queue<R: Wait>(&mut self, rt: &R, left: &mut TaskList<T>) -> Result<(), NoMemory>
        requires { self.old.parts ≡ all_parts }
        ensures moved { OnOk result (MovesFromQueue T.number self.old left.old self.new left.new) }
        ensures all { OnOk result (WeighsSame self.new.put_back self.new.from_queue) }
    {
        for _ in rt.forever() {
            match self.pop_queue(rt) {
                Look::Task(task) => left.push(task)?,
                Look::Empty => return Ok(()),
                Look::Retry => {}
            }
        }
        unreachable!()
    }

    fn pop_deque(&mut self) -> Option<T>
        ensures { PopsDeque T.number self.old result self.new }
    {
        let parcel = self.deque.pop_as::<Takes>()?;
        Some(parcel.into_task())
    }

    fn pop_queue<R: Wait>(&mut self, rt: &R) -> Look<T>
        ensures { PopsQueue T.number self.old result self.new }
    {
        match self
            .shared
            .queue
            .steal_as::<Takes, R>(rt, &mut self.queue_pass)
        {
            Steal::Success(parcel) => Look::Task(parcel.into_task()),
            Steal::Empty => Look::Empty,
            Steal::Retry => Look::Retry,
        }
    }
}
