ghost use Rattle.std.specs.Prelude.{◌≡◌, ◌+◌, ◌-◌, ◌<◌, false, true, [], ◌∷◌, ◌++◌, length};
ghost use Rattle.steal_pool.specs.meaning.Pool.{FeedValue};

use crate::balance::Puts;
use crate::shared::{DequeOwner, QueuePass, Shared};
use crate::shut_word::{Sets, ShutPass};
use crate::{Numbered, Parcel};
use std::collections::LinkedList;
use std::marker::Model;
use std::mem;
use std::sync::{Arc, Wait};

/// The side of a pool that puts tasks in. There is one for each pool.
#[derive(Drop)]
pub struct Feed<T: Numbered> {
    pub(crate) deque: DequeOwner<T>,
    pub(crate) shared: Arc<Shared<T>>,
    pub(crate) queue_pass: QueuePass<T>,
    pub(crate) shut_pass: ShutPass,
    // A note for each task that may still be fed.
    pub(crate) notes: LinkedList<u64>,
}

impl<T: Numbered> Model for Feed<T> {
    ghost use Rattle.std.specs.Prelude.{◌≡◌, ◌+◌, ◌-◌, length};
    ghost use Rattle.crossbeam_deque.specs.Handles.{worker_deque, worker_flavor, worker_index, worker_capacity, worker_view};
    ghost use Rattle.crossbeam_deque.specs.Injected.{injector_view, IsInjectorPassOf};
    ghost use Rattle.crossbeam_utils.specs.Seq.{cell_view};
    ghost use Rattle.steal_pool.specs.meaning.Pool.{FeedValue};
    ghost use Rattle.steal_pool.specs.storage.Balance.{all_parts};
    ghost use Rattle.steal_pool.specs.storage.Sides.{IsFeed};

    ghost Value = { FeedValue };

    ghost view = { λ f. record {
      pool = record { deque = (worker_deque f.deque).0; queue = f.shared.value.queue.queue.web };
      thieves = all_parts - (worker_view f.deque).parts;
      room = length (worker_view f.deque).put + length f.notes;
      fed = (worker_view f.deque).put;
      is_shut = (cell_view f.shut_pass).knows;
    } };

    ghost invariant = { λ f. IsFeed (worker_view f.deque) (injector_view f.queue_pass) (cell_view f.shut_pass) (length f.notes) (worker_flavor f.deque) (worker_index f.deque) (worker_capacity f.deque)
        × IsInjectorPassOf f.shared.value.queue f.queue_pass
        × (f.shut_pass.table_id ≡ f.shared.value.shut.table.shared.table_id) };
}

impl<T: Numbered> Feed<T> {
    /// Puts a task at the back of the deque, in constant time.
    pub fn feed(&mut self, task: T)
        requires room { length self.old.fed < self.old.room }
        requires open { self.old.is_shut ≡ false }
        ensures { self.new ≡ record self.old { fed = self.old.fed ++ T.number task ∷ [] } }
    {
        let mut note = first_note(&mut self.notes);
        set_note(&mut note, task.number());
        let parcel = Parcel { task, note };
        match self.deque.push_as::<Puts>(parcel) {
            Ok(()) => {}
            Err(_) => unreachable!(),
        }
    }

    /// Tells all thieves that no more tasks come.
    pub fn shut<R: Wait>(&mut self, rt: &R)
        ensures { self.new ≡ record self.old { is_shut = true } }
    {
        self.shared
            .shut
            .swap_as::<Sets, R>(rt, &mut self.shut_pass, [1]);
    }
}

// Takes the first note out, in constant time.
fn first_note(notes: &mut LinkedList<u64>) -> LinkedList<u64>
    requires { 0 < length notes.old }
    ensures note { length result ≡ 1 }
    ensures rest { length notes.new + 1 ≡ length notes.old }
{
    match notes.split_off(1) {
        Ok(rest) => mem::replace(notes, rest),
        Err(_) => unreachable!(),
    }
}

fn set_note(note: &mut LinkedList<u64>, number: u64)
    requires { length note.old ≡ 1 }
    ensures { note.new ≡ number ∷ [] }
{
    if let Some(place) = note.front_mut() {
        *place = number;
    }
}
