// The rule of the deque and of the queue, what a call on them tells, and how passes are split and joined.
ghost use Rattle.std.specs.Prelude.{◌≡◌, ◌+◌, ◌-◌, ◌^◌, [], ◌++◌, ℕ, map, sum_by};
ghost use Rattle.steal_pool.specs.storage.Balance.{account, all_parts, opening_account, IsBalanced};

use crate::{Numbered, Parcel};
use crossbeam_deque::protocol::{Join, Outcome, Protocol, Split};
use std::collections::LinkedList;

// What a pass has put and taken, and its parts of the right to know the whole. No value of it is made.
pub struct Account {
    pub parts: u64,
    pub put: LinkedList<u64>,
    pub taken: LinkedList<u64>,
}

pub struct Balance;

impl<T: Numbered> Protocol<Parcel<T>, Account> for Balance {
    ghost holds = { IsBalanced T.number };

    ghost first = { opening_account };

    ghost guest = { opening_account };
}

// A task was put there.
pub struct Puts;

impl<T: Numbered> Outcome<Parcel<T>, Account> for Puts {
    ghost then = { λ a tasks b. b ≡ account a.parts (a.put ++ map T.number tasks) a.taken };
}

// A task was taken; or there was none, and then who has every part knows that all that was put was taken.
pub struct Takes;

impl<T: Numbered> Outcome<Parcel<T>, Account> for Takes {
    ghost then = { λ a tasks b. b ≡ account a.parts a.put (a.taken ++ map T.number tasks) };

    ghost empty = { λ a. a.parts ≡ all_parts → (weight : ℕ → ℕ) → sum_by weight a.put ≡ sum_by weight a.taken };
}

// One part goes to a new pass.
pub struct Part;

impl Split<Account> for Part {
    ghost left = { λ a. account (a.parts - 1) a.put a.taken };

    ghost right = { λ a. account 1 [] [] };
}

impl Join<Account> for Part {
    ghost both = { λ a b. account (a.parts + b.parts) (a.put ++ b.put) (a.taken ++ b.taken) };

    ghost spent = { account 0 [] [] };
}
