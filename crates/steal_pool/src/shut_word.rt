// The word that says that the feed is shut, its rule, and what a call on it tells.
ghost use Rattle.std.specs.Prelude.{◌≡◌, true, false, ◌==◌, slice_index};
ghost use Rattle.steal_pool.specs.storage.ShutWord.{notice, IsToldRight};

use atomic_table::Split;
use crossbeam_utils::atomic::seq_cell::{Pass, RuledSeqCell};
use crossbeam_utils::rule::{Outcome, Protocol};

// Whether a pass may set the word, and whether it knows that the word is set. No value of it is made.
pub struct Notice {
    pub sets: bool,
    pub knows: bool,
}

pub struct ToldRight;

impl Protocol<[u64; 1], Notice> for ToldRight {
    ghost holds = { IsToldRight };

    ghost first = { notice true false };
}

// The word was set.
pub struct Sets;

impl Outcome<[u64; 1], Notice> for Sets {
    ghost then = { λ n before after m. m ≡ notice n.sets true };
}

// The word was read. Who knew that it is set reads that it is.
pub struct Reads;

impl Outcome<[u64; 1], Notice> for Reads {
    ghost then = { λ n before after m. m ≡ notice n.sets (slice_index after 0 == 1) };
}

// A new pass, which may only read.
pub struct Reader;

impl Split<Notice> for Reader {
    ghost left = { λ n. n };

    ghost right = { λ n. notice false false };
}

pub type ShutWord = RuledSeqCell<[u64; 1], Notice, ToldRight, 1>;

pub type ShutPass = Pass<[u64; 1], Notice>;
