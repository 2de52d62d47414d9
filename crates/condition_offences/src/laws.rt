//! Laws about texts that are no condition: each is the contract of a function that does nothing.

ghost use Rattle.std.specs.Prelude.{◌≡◌, ◌↔◌, ℕ, List, Err};
ghost use Rattle.line_fields.specs.meaning.Names.{Names};
ghost use Rattle.conditions.specs.meaning.Written.{most_depth};
ghost use Rattle.condition_grammar.specs.declared.fault.ConditionKind.{ConditionKind};
ghost use Rattle.condition_grammar.specs.meaning.Grammar.{condition_of};
ghost use Rattle.condition_grammar.specs.meaning.Token.{Token};
ghost use Rattle.condition_offences.specs.meaning.Offences.{CanBeCompleted, IsRefused, Offence};

/// A text is refused, and as this kind, exactly where the grammar gives the reason: a byte begins no token; there are too
/// many tokens; the text ends early; a token is the first after which no condition can be completed; or a token opens
/// the 33rd `not` or parenthesis.
pub fn texts_are_refused_for_the_first_offence()
    ensures { (text : List ℕ) (names : Names) (kind : ConditionKind) →
        (condition_of text names ≡ Err kind) ↔ IsRefused text names kind }
{}

/// Tokens have a first offence exactly where they cannot be completed to a condition.
pub fn what_cannot_be_completed_has_an_offence()
    ensures { (tokens : List Token) (names : Names) →
        (CanBeCompleted most_depth tokens names → ⊥) ↔ Offence tokens names }
{}

/// Tokens have one first offence at most.
pub fn first_offences_are_unique()
    ensures { (tokens : List Token) (names : Names) (one other : Offence tokens names) →
        (one.prefix ≡ other.prefix) × (one.token ≡ other.token) × (one.suffix ≡ other.suffix) }
{}
