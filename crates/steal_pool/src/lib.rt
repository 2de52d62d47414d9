//! A pool of tasks: a feed puts them in, and thieves, each in a thread of its own, take them out, put
//! them back for another to take, and are settled with at the end.
#![tactic(auto)]

use graph_types::List;

mod balance;
mod books;
mod feed;
mod numbered;
mod opening;
mod parcel;
mod settling;
mod shared;
mod shut_word;
mod taken;
mod thief;

pub use feed::Feed;
pub use numbered::Numbered;
pub use opening::pool;
use parcel::Parcel;
pub use settling::{Settled, settle};
pub use taken::{Again, Taken};
pub use thief::Thief;

/// The thieves of a pool.
pub type ThiefList<T> = List<Thief<T>>;

/// Tasks, in an order that the call says.
pub type TaskList<T> = List<T>;

/// Numbers, in an order that the call says.
pub type NumberList = List<u64>;

/// Lists of numbers, in an order that the call says.
pub type NumberLists = List<NumberList>;

#[cfg(test)]
mod tests;
