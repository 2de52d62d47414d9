//! Laws about conditions as text: each is the contract of a function that does nothing.

ghost use Rattle.std.specs.Prelude.{◌≡◌, ◌↔◌, ℕ, List, Ok};
ghost use Rattle.conditions.specs.declared.condition.Cond.{Cond};
ghost use Rattle.line_fields.specs.meaning.Names.{Names};
ghost use Rattle.condition_grammar.specs.meaning.Derivations.{Says};
ghost use Rattle.condition_grammar.specs.meaning.Grammar.{condition_of};

/// A text is read as a condition exactly where its tokens derive that condition by the grammar, within the limits.
pub fn texts_are_read_by_the_grammar()
    ensures { (text : List ℕ) (names : Names) (c : Cond) (after : Names) →
        (condition_of text names ≡ Ok (c, after)) ↔ Says text names c after }
{}

/// A text says one condition at most, and leads to one list of names.
pub fn texts_are_unambiguous()
    ensures { (text : List ℕ) (names : Names) (c d : Cond) (after later : Names) →
        Says text names c after → Says text names d later → (c ≡ d) × (after ≡ later) }
{}
