use crate::case::CaseFault;
use crate::text::{Shown, read_text};
use command_words::{Command, Options, Verb, WordsFault, read_words};
use std::alloc::Global;
use std::fmt::Write;
use std::str;

/// `command TEXT`: the command with each option that it has, as it is named or by default. A space parts two words, so that a space at an end has an empty word beside it.
pub fn command(alloc: Global, text: &str, answer: &mut String) -> Result<(), CaseFault> {
    let bytes = read_text(alloc, text)?;
    let text = str::from_utf8(bytes.as_slice())
        .ok()
        .ok_or(CaseFault::BadCase)?;
    let words = split(alloc, text)?;
    let command = match read_words(alloc, words.as_slice()) {
        Ok(command) => command,
        Err(WordsFault::Usage) => {
            answer.push_str("usage")?;
            return Ok(());
        }
        Err(WordsFault::NoMemory) => return Err(CaseFault::NoMemory),
    };
    show_command(&command, answer)
}

/// The command, with each option that it has.
fn show_command(command: &Command, answer: &mut String) -> Result<(), CaseFault> {
    let options = &command.options;
    match command.verb {
        Verb::Mine => {
            write!(answer, "mine workers {}", options.workers)?;
            show_windows(options, answer)?;
            write!(answer, " records {}", options.records)?;
        }
        Verb::Fold => {
            answer.push_str("fold")?;
            if let Some(at) = options.at {
                write!(answer, " at {at}")?;
            }
        }
        Verb::Migrate => answer.push_str("migrate")?,
        Verb::Rehearse => {
            answer.push_str("rehearse")?;
            show_windows(options, answer)?;
            write!(answer, " records {}", options.records)?;
            show_schedule(options.schedule.as_slice(), answer)?;
        }
        Verb::Trial => {
            write!(answer, "trial seed {}", options.seed)?;
            write!(answer, " vertices {}", options.vertices)?;
            write!(answer, " updates {}", options.updates)?;
            write!(answer, " workers {}", options.workers)?;
            show_windows(options, answer)?;
        }
    }
    Ok(())
}

fn show_windows(options: &Options, answer: &mut String) -> Result<(), CaseFault> {
    write!(answer, " shards {}", options.shards)?;
    write!(answer, " window {}", options.window)?;
    write!(answer, " max-records {}", options.max_records)?;
    write!(answer, " max-lines {}", options.max_lines)?;
    Ok(())
}

/// The digits of a schedule; `-` stands for none.
fn show_schedule(digits: &[u8], answer: &mut String) -> Result<(), CaseFault> {
    if digits.is_empty() {
        answer.push_str(" schedule -")?;
    } else {
        write!(answer, " schedule {}", Shown(digits))?;
    }
    Ok(())
}

fn split(alloc: Global, text: &str) -> Result<Vec<String>, CaseFault> {
    let mut words = Vec::new(alloc);
    if !text.is_empty() {
        for word in text.split(' ') {
            words.push(String::from_str(alloc, word)?)?;
        }
    }
    Ok(words)
}
