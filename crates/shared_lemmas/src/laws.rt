//! A law about the definitions: the contract of a function that does nothing.

ghost use Rattle.std.specs.Prelude.{◌≡◌, ◌↔◌, true, List};
ghost use Rattle.std.specs.List.Sorted.{IsStrictlySortedBy};
ghost use Rattle.shared_lemmas.specs.meaning.Ascending.{is_ascending};

/// To compare each item with the next decides whether a list ascends.
pub fn ascending_is_decided<T: Ord>()
    ensures { (xs : List T) → (is_ascending T.cmp xs ≡ true) ↔ IsStrictlySortedBy T.cmp xs }
{}
