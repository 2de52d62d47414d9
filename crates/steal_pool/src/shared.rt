use crate::balance::{Account, Balance};
use crate::shut_word::ShutWord;
use crate::{Numbered, Parcel};
use crossbeam_deque::{Injector, InjectorPass, Pass, Stealer, Worker};
use std::alloc::Global;

// What all sides of a pool share beside the deque: the queue of tasks put back, and the word that says
// that the feed is shut.
#[derive(Drop)]
pub struct Shared<T: Numbered> {
    pub queue: Queue<T>,
    pub shut: ShutWord,
}

pub type Queue<T> = Injector<Parcel<T>, Global, Account, Balance>;

pub type QueuePass<T> = InjectorPass<Parcel<T>, Account>;

pub type DequeOwner<T> = Worker<Parcel<T>, Global, Account, Balance>;

pub type DequeThief<T> = Stealer<Parcel<T>, Global, Account, Balance>;

pub type DequePass<T> = Pass<Parcel<T>, Account>;
