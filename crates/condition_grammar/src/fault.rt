use graph_types::NoMemory;
use std::alloc::{AllocError, AllocFailed};
use thiserror::Error;

/// Why a condition was not read.
#[derive(Clone, Copy, Debug, PartialEq, Eq, Error)]
pub enum ConditionFault {
    /// The text says no condition.
    #[error("{0}")]
    Refused(ConditionKind),
    /// An allocation was refused.
    #[error("out of memory")]
    NoMemory,
}

/// What is wrong with the text of a condition.
#[derive(Clone, Copy, Debug, PartialEq, Eq, Error)]
pub enum ConditionKind {
    /// A byte begins no token, or after some token no condition can be completed, or the text ends early.
    #[error("the text is not of the form of a condition")]
    BadForm,
    /// More than 32 `not` and parentheses are open at once.
    #[error("more than 32 `not` and parentheses are open at once")]
    TooDeep,
    /// There are more than 512 tokens.
    #[error("the condition has more than 512 tokens")]
    TooLong,
}

impl From<ConditionKind> for ConditionFault {
    ghost use Rattle.std.specs.Prelude.{◌≡◌};
    ghost use Rattle.condition_grammar.specs.declared.fault.ConditionFault.TheVariants.{Refused};

    ghost from_gives = { λ kind e. e ≡ Refused kind };

    fn from(kind: ConditionKind) -> ConditionFault {
        ConditionFault::Refused(kind)
    }
}

impl From<NoMemory> for ConditionFault {
    ghost use Rattle.std.specs.Prelude.{◌≡◌};
    ghost use Rattle.condition_grammar.specs.declared.fault.ConditionFault.TheVariants.{NoMemory as want};

    ghost from_gives = { λ _ e. e ≡ want };

    fn from(_error: NoMemory) -> ConditionFault {
        ConditionFault::NoMemory
    }
}

impl From<AllocError> for ConditionFault {
    ghost use Rattle.std.specs.Prelude.{◌≡◌};
    ghost use Rattle.condition_grammar.specs.declared.fault.ConditionFault.TheVariants.{NoMemory as want};

    ghost from_gives = { λ _ e. e ≡ want };

    fn from(_error: AllocError) -> ConditionFault {
        ConditionFault::NoMemory
    }
}

impl<T: Drop> From<AllocFailed<T>> for ConditionFault {
    ghost use Rattle.std.specs.Prelude.{◌≡◌};
    ghost use Rattle.condition_grammar.specs.declared.fault.ConditionFault.TheVariants.{NoMemory as want};

    ghost from_gives = { λ _ e. e ≡ want };

    fn from(_error: AllocFailed<T>) -> ConditionFault {
        ConditionFault::NoMemory
    }
}
