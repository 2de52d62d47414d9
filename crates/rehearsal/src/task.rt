ghost use Rattle.std.specs.Prelude.{◌≡◌};
ghost use Rattle.rehearsal.specs.calls.Tasks.{finished};

use delta_task::Delta;
use std::mem;

/// How far the task of a group is, and what it found.
#[derive(Debug, Drop)]
pub enum Task {
    Waiting,
    Live,
    Explored(Delta),
    Finished(Delta),
}

impl Task {
    /// Finishes a task that explored, and leaves any other.
    pub(crate) fn finish(&mut self)
        ensures { self.new ≡ finished self.old }
    {
        match mem::replace(self, Task::Live) {
            Task::Explored(delta) => *self = Task::Finished(delta),
            other => *self = other,
        }
    }
}
