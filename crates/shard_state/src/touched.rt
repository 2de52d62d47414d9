ghost use Rattle.std.specs.Prelude.{◌≡◌, ◌+◌, ◌≤◌, ◌<◌, [], ◌∷◌, ◌++◌, OnOk};
ghost use Rattle.shard_state.specs.calls.Touching.{TakesDue, begins_by};

use crate::touch::Touch;
use graph_types::{NoMemory, Stamp, VertexId};
use std::alloc::Global;
use std::collections::VecDeque;
use std::marker::Model;

/// Which vertices changed and when, in the order of the timestamps.
#[derive(Drop)]
pub(crate) struct Touched {
    items: VecDeque<Touch>,
}

impl Model for Touched {
    ghost use Rattle.std.specs.Prelude.{◌-◌};
    ghost use Rattle.std.specs.VecDeque.{deque_capacity, deque_len};
    ghost use Rattle.shard_state.specs.storage.Touched.{TouchedValue};

    ghost Value = { TouchedValue };

    ghost view = { λ t. record { touches = t.items.items; room = deque_capacity t.items - deque_len t.items } };
}

impl Touched {
    /// No change, and no room yet.
    pub fn new(alloc: Global) -> Touched
        ensures { result.touches ≡ [] }
    {
        Touched {
            items: VecDeque::new(alloc),
        }
    }

    /// Makes room for so many more, where there is less.
    pub fn reserve(&mut self, count: usize) -> Result<(), NoMemory>
        ensures same { self.new.touches ≡ self.old.touches }
        ensures ok { OnOk result (count ≤ self.new.room) }
    {
        self.items.reserve(count)?;
        Ok(())
    }

    /// Notes a change after all others. It takes no memory.
    pub fn push(&mut self, at: Stamp, vertex: VertexId)
        requires { 0 < self.old.room }
        ensures touches { self.new.touches ≡ self.old.touches ++ record { at = at; vertex = vertex } ∷ [] }
        ensures room { self.new.room + 1 ≡ self.old.room }
    {
        self.items.push_back_reserved(Touch { at, vertex });
    }

    /// Takes out the first, if it is one up to a timestamp, and answers which vertex changed.
    pub fn take_due(&mut self, t: Stamp) -> Option<VertexId>
        ensures { TakesDue self.old.touches t result self.new.touches }
    {
        if !self.is_due(t) {
            return None;
        }
        let touch = self.items.pop_front()?;
        Some(touch.vertex)
    }

    /// Whether the first is one up to a timestamp.
    fn is_due(&self, t: Stamp) -> bool
        ensures { result ≡ begins_by t self.now.touches }
    {
        match self.items.front() {
            Some(touch) => touch.at <= t,
            None => false,
        }
    }
}
