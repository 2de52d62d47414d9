ghost use Rattle.std.specs.Prelude.{◌≡◌, IfOk};
ghost use Rattle.condition_grammar.specs.calls.Cursor.{token_of};
ghost use Rattle.condition_grammar.specs.meaning.Grammar.{joint_word, joined};

use crate::token::Token;
use conditions::Cond;
use sqlite_items::Boxed;
use std::alloc::{AllocError, Global};

/// A word that stands between conditions. `and` binds more than `or`.
#[derive(Clone, Copy, Debug, PartialEq, Eq)]
pub(crate) enum Joint {
    And,
    Or,
}

impl Joint {
    /// The word as a token.
    pub(crate) fn word(self) -> Token<'static>
        ensures { token_of result ≡ joint_word self }
    {
        match self {
            Joint::And => Token::Word(b"and"),
            Joint::Or => Token::Word(b"or"),
        }
    }

    /// Two conditions with the word between them.
    pub(crate) fn join(self, alloc: Global, left: Cond, right: Cond) -> Result<Cond, AllocError>
        ensures { IfOk result (λ c. c ≡ joined self left right) }
    {
        let left = Boxed::new(alloc, left)?;
        let right = Boxed::new(alloc, right)?;
        Ok(match self {
            Joint::And => Cond::And(left, right),
            Joint::Or => Cond::Or(left, right),
        })
    }
}
