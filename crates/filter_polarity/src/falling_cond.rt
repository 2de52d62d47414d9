ghost use Rattle.std.specs.Prelude.{◌≡◌, IsTrue};
ghost use Rattle.filter_polarity.specs.meaning.Polarity.{is_falling};

use conditions::Cond;
use graph_types::Mode;
use std::marker::Model;
use thiserror::Error;

/// A condition that is falling in its mode: where it holds of a picture, it holds of each part of it.
#[derive(Debug, Drop)]
pub struct Falling {
    mode: Mode,
    cond: Cond,
}

impl Model for Falling {
    ghost use Rattle.std.specs.Prelude.{IsTrue};
    ghost use Rattle.std.specs.Coded.{codes};
    ghost use Rattle.conditions.specs.contracts.condition.Cond as conditions;
    ghost use Rattle.filter_polarity.specs.meaning.Polarity.{is_falling};
    ghost use Rattle.filter_polarity.specs.meaning.Program.{FallingValue};

    ghost Value = { FallingValue };

    ghost coded = { Prim.hlevel (codes, conditions.the_row.coded) };

    ghost view = { λ f. record { mode = f.mode; cond = f.cond } };

    ghost invariant = { λ f. IsTrue (is_falling f.mode f.cond) };
}

/// A condition that isn't falling in the mode that was asked.
#[derive(Debug, Drop, Error)]
#[error("the condition is not falling in this mode")]
pub struct NotFalling {
    pub cond: Cond,
}

impl Falling {
    pub(crate) fn new(mode: Mode, cond: Cond) -> Falling
        requires { IsTrue (is_falling mode cond) }
        ensures { result ≡ record { mode = mode; cond = cond } }
    {
        Falling { mode, cond }
    }

    /// The mode in which the condition is falling.
    pub fn mode(&self) -> Mode
        ensures { result ≡ self.now.mode }
    {
        self.mode
    }

    /// The condition itself.
    pub fn cond(&self) -> &Cond
        ensures value { result.now ≡ self.now.cond }
        ensures falls { IsTrue (is_falling self.now.mode self.now.cond) }
    {
        &self.cond
    }
}
