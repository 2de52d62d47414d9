//! The fields of a line: its words, the number, id or label that a word says, and the names of labels, each
//! with its number.
#![tactic(auto)]

mod fields;
mod names;

pub use fields::{
    is_label, is_label_byte, is_label_start, is_nothing, read_id, read_number, rest, trim_start,
    word, words,
};
pub use names::{MOST_NAMES, NO_NAME, NameFault, Names};
