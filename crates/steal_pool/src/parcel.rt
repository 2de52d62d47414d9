ghost use Rattle.std.specs.Prelude.{◌≡◌, [], ◌∷◌, ◌++◌};

use crate::Numbered;
use std::collections::LinkedList;
use std::marker::Model;
use std::sync::Wait;

/// A task, with the note of its number: the place that the number takes in the list of whoever has the
/// task. So a list grows without memory. Contracts see the task.
#[derive(Drop)]
pub struct Parcel<T: Numbered> {
    pub task: T,
    pub note: LinkedList<u64>,
}

impl<T: Numbered> Model for Parcel<T> {
    ghost use Rattle.std.specs.Prelude.{◌≡◌, [], ◌∷◌};

    ghost Value = { T };

    ghost view = { λ p. p.task };

    ghost invariant = { λ p. p.note ≡ T.number p.task ∷ [] };
}

impl<T: Numbered> Parcel<T> {
    pub fn into_task(self) -> T
        ensures { result ≡ self }
    {
        let Parcel { task, note: _ } = self;
        task
    }
}

/// Takes the task out, and puts its note at the end of the list, in constant time.
pub fn unpack<T: Numbered, R: Wait>(rt: &R, parcel: Parcel<T>, numbers: &mut LinkedList<u64>) -> T
    ensures task { result ≡ parcel }
    ensures note { numbers.new ≡ numbers.old ++ T.number parcel ∷ [] }
{
    let Parcel { task, note } = parcel;
    append(rt, numbers, note);
    task
}

// Puts the notes at the end of the list. At 2^63 notes, for which no machine has room, it waits for ever.
fn append<R: Wait>(rt: &R, numbers: &mut LinkedList<u64>, mut notes: LinkedList<u64>)
    ensures { numbers.new ≡ numbers.old ++ notes }
{
    for _ in rt.forever() {
        if numbers.append(&mut notes).is_ok() {
            return;
        }
    }
    unreachable!()
}
