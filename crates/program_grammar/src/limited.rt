ghost use Rattle.std.specs.Prelude.{◌≡◌, ◌≤◌};
ghost use Rattle.graph_types.specs.meaning.Piece.{most_members};
ghost use Rattle.conditions.specs.meaning.Written.{IsWithinLimits};
ghost use Rattle.program_grammar.specs.meaning.Sizes.{size_in};

use conditions::Cond;
use filter_polarity::Falling;
use std::marker::Model;

/// The most members of a piece, 1 to 8. Contracts see the number.
#[derive(Debug, Drop)]
pub struct Size {
    members: u8,
}

impl Model for Size {
    ghost use Rattle.std.specs.Prelude.{ℕ, ◌≤◌};
    ghost use Rattle.graph_types.specs.meaning.Piece.{most_members};

    ghost Value = { ℕ };

    ghost view = { λ s. s.members };

    ghost invariant = { λ s. (1 ≤ s.members) × (s.members ≤ most_members) };
}

impl Size {
    /// The size that a number is.
    pub(crate) fn of_number(number: u64) -> Option<Size>
        ensures { result ≡ size_in number }
    {
        if (1..=8).contains(&number) {
            Some(Size {
                members: number as u8,
            })
        } else {
            None
        }
    }

    pub(crate) fn members(&self) -> u8
        ensures number { result ≡ self.now }
        ensures some { 1 ≤ result }
        ensures few { result ≤ most_members }
    {
        self.members
    }
}

/// A filter within the limits of a program.
#[derive(Debug, Drop)]
pub struct Filter {
    falling: Falling,
}

impl Model for Filter {
    ghost use Rattle.std.specs.Coded.{codes};
    ghost use Rattle.conditions.specs.contracts.condition.Cond as conditions;
    ghost use Rattle.filter_polarity.specs.meaning.Program.{FallingValue};
    ghost use Rattle.conditions.specs.meaning.Written.{IsWithinLimits};

    ghost Value = { FallingValue };

    ghost coded = { Prim.hlevel (codes, conditions.the_row.coded) };

    ghost view = { λ f. f.falling };

    ghost invariant = { λ f. IsWithinLimits f.falling.cond };
}

impl Filter {
    pub(crate) fn new(falling: Falling) -> Filter
        requires { IsWithinLimits falling.cond }
        ensures { result ≡ falling }
    {
        Filter { falling }
    }

    pub(crate) fn into_falling(self) -> Falling
        ensures value { result ≡ self }
        ensures within { IsWithinLimits result.cond }
    {
        let Filter { falling } = self;
        falling
    }
}

/// A condition within the limits of a program.
#[derive(Debug, Drop)]
pub struct Matching {
    cond: Cond,
}

impl Model for Matching {
    ghost use Rattle.conditions.specs.contracts.condition.Cond as conditions;
    ghost use Rattle.conditions.specs.declared.condition.Cond.{Cond as SpecCond};
    ghost use Rattle.conditions.specs.meaning.Written.{IsWithinLimits};

    ghost Value = { SpecCond };

    ghost coded = { conditions.the_row.coded };

    ghost view = { λ m. m.cond };

    ghost invariant = { λ m. IsWithinLimits m.cond };
}

impl Matching {
    pub(crate) fn new(cond: Cond) -> Matching
        requires { IsWithinLimits cond }
        ensures { result ≡ cond }
    {
        Matching { cond }
    }

    pub(crate) fn into_cond(self) -> Cond
        ensures value { result ≡ self }
        ensures within { IsWithinLimits result }
    {
        let Matching { cond } = self;
        cond
    }
}
