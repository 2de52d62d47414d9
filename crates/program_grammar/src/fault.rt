use crate::header::Word;
use condition_grammar::{ConditionFault, ConditionKind};
use graph_types::NoMemory;
use thiserror::Error;

/// Why a program was not read.
#[derive(Clone, Copy, Debug, PartialEq, Eq, Error)]
pub enum ProgramFault {
    /// What is wrong, and the number of the line, or how many lines there were where one is missing.
    #[error("line {line}: {kind}")]
    Refused { line: u64, kind: ProgramKind },
    /// An allocation was refused.
    #[error("out of memory")]
    NoMemory,
}

/// What is wrong with a program.
#[derive(Clone, Copy, Debug, PartialEq, Eq, Error)]
pub enum ProgramKind {
    /// The line is not of the awaited form.
    #[error("the line is not of the awaited form")]
    BadLine,
    /// The lines end before one that begins with this word. It is said of no line.
    #[error("no line begins with {0}")]
    Missing(Word),
    /// The size is a number, and not 1 to 8.
    #[error("the size is not 1 to 8")]
    SizeRange,
    /// More than 32 `not` and parentheses are open at once in the condition.
    #[error("more than 32 `not` and parentheses are open at once")]
    TooDeep,
    /// The condition has more than 512 tokens.
    #[error("the condition has more than 512 tokens")]
    TooLong,
    /// The filter is not falling in the job's mode.
    #[error("the filter is not falling in this mode")]
    NotFalling,
}

/// Why a line was not read.
#[derive(Clone, Copy, Debug, PartialEq, Eq)]
pub(crate) enum ReadError {
    Refused(ProgramKind),
    NoMemory,
}

impl From<ProgramKind> for ReadError {
    ghost use Rattle.std.specs.Prelude.{◌≡◌};
    ghost use Rattle.program_grammar.specs.declared.fault.ReadError.TheVariants.{Refused};

    ghost from_gives = { λ kind e. e ≡ Refused kind };

    fn from(kind: ProgramKind) -> ReadError {
        ReadError::Refused(kind)
    }
}

impl From<NoMemory> for ReadError {
    ghost use Rattle.std.specs.Prelude.{◌≡◌};
    ghost use Rattle.program_grammar.specs.declared.fault.ReadError.TheVariants.{NoMemory as want};

    ghost from_gives = { λ _ e. e ≡ want };

    fn from(_error: NoMemory) -> ReadError {
        ReadError::NoMemory
    }
}

impl From<ConditionFault> for ReadError {
    ghost use Rattle.std.specs.Prelude.{◌≡◌};
    ghost use Rattle.program_grammar.specs.calls.Answers.{error_of_condition};

    ghost from_gives = { λ fault e. e ≡ error_of_condition fault };

    fn from(fault: ConditionFault) -> ReadError {
        match fault {
            ConditionFault::NoMemory => ReadError::NoMemory,
            ConditionFault::Refused(ConditionKind::BadForm) => {
                ReadError::Refused(ProgramKind::BadLine)
            }
            ConditionFault::Refused(ConditionKind::TooDeep) => {
                ReadError::Refused(ProgramKind::TooDeep)
            }
            ConditionFault::Refused(ConditionKind::TooLong) => {
                ReadError::Refused(ProgramKind::TooLong)
            }
        }
    }
}
