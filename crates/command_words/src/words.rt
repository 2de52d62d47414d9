ghost use Rattle.std.specs.Prelude.{◌≡◌, IfOk, MatchResult, Some, map, string_bytes};
ghost use Rattle.command_words.specs.calls.Reading.{LacksCommand};
ghost use Rattle.command_words.specs.meaning.Ranges.{AreWithin};
ghost use Rattle.command_words.specs.meaning.Words.{command_of, verb_of};

use crate::command::{Command, Verb, WordsFault};
use crate::options::read_options;
use std::alloc::Global;

/// The command that the words after the program's name give. It goes over them a few times for each
/// option. Only the digits of a schedule take memory.
pub fn read_words(alloc: Global, words: &[String]) -> Result<Command, WordsFault>
    ensures read { MatchResult result
        (λ command. command_of (map string_bytes words.now) ≡ Some command)
        (LacksCommand (command_of (map string_bytes words.now))) }
    ensures within { IfOk result (λ command. AreWithin command.options) }
{
    match words {
        [] => Err(WordsFault::Usage),
        [word, behind @ ..] => {
            let verb = read_verb(word.as_bytes()).ok_or(WordsFault::Usage)?;
            let options = read_options(alloc, verb, behind)?;
            Ok(Command { verb, options })
        }
    }
}

fn read_verb(word: &[u8]) -> Option<Verb>
    ensures { result ≡ verb_of word.now }
{
    if word == b"mine".as_slice() {
        Some(Verb::Mine)
    } else if word == b"fold".as_slice() {
        Some(Verb::Fold)
    } else if word == b"migrate".as_slice() {
        Some(Verb::Migrate)
    } else if word == b"rehearse".as_slice() {
        Some(Verb::Rehearse)
    } else if word == b"trial".as_slice() {
        Some(Verb::Trial)
    } else {
        None
    }
}
