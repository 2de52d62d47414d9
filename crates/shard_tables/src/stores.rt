ghost use Rattle.std.specs.Prelude.{IfOk};
ghost use Rattle.shard_tables.specs.calls.Asking.{TellWindow};

use crate::case::{CaseFault, field, shard_count, stamp};
use crate::groups::groups;
use crate::questions::{look, prune, take};
use crate::showing::separate;
use group_window::Window;
use line_fields::Names;
use shard_state::Shard;
use shard_state::sharing::make_shards;
use std::alloc::Global;

/// `COUNT / STEP / STEP .. ; QUESTION / QUESTION ..`: a window of the groups that the steps make, and so many shards
/// without a vertex. Each question is told by its answer.
pub fn store(
    alloc: Global,
    names: &mut Names,
    text: &str,
    answer: &mut String,
) -> Result<(), CaseFault> {
    let Some((made, questions)) = text.split_once(" ; ") else {
        return Err(CaseFault::BadCase);
    };
    let Some((word, steps)) = made.split_once(" / ") else {
        return Err(CaseFault::BadCase);
    };
    let count = shard_count(word)?;
    let window = groups(alloc, names, count, steps)?;
    let mut shards = make_shards(alloc, count)?;
    ask_all(alloc, &window, &mut shards, questions, answer)
}

fn ask_all(
    alloc: Global,
    window: &Window,
    shards: &mut [Shard],
    questions: &str,
    answer: &mut String,
) -> Result<(), CaseFault>
    requires { TellWindow window.now 0 shards.old }
{
    let mut taken = 0;
    for question in questions.split(" / ") {
        separate(answer)?;
        taken = ask(alloc, window, shards, taken, question, answer)?;
    }
    Ok(())
}

/// Answers one question, of shards that took in so many groups, and gives how many they took in then.
fn ask(
    alloc: Global,
    window: &Window,
    shards: &mut [Shard],
    taken: usize,
    question: &str,
    answer: &mut String,
) -> Result<usize, CaseFault>
    requires { TellWindow window.now taken shards.old }
    ensures { IfOk result (λ now. TellWindow window.now now shards.new) }
{
    let (verb, text) = field(question);
    match verb {
        "take" => take(window, shards, taken, answer),
        "prune" => {
            prune(shards, stamp(text)?, answer)?;
            Ok(taken)
        }
        _ => {
            look(alloc, window, shards, taken, question, answer)?;
            Ok(taken)
        }
    }
}
