//! The words of the command line: which command they name, with which options, or that they are in none
//! of the forms.
#![tactic(auto)]

mod command;
pub mod laws;
mod options;
mod settings;
mod words;

pub use command::{Command, Options, Verb, WordsFault};
pub use words::read_words;
