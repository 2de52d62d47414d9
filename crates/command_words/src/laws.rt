//! Laws of the command line: each is the contract of a function that does nothing.

ghost use Rattle.std.specs.Prelude.{◌≡◌, List, Some, map};
ghost use Rattle.std.specs.List.{AllByRecursion};
ghost use Rattle.command_words.specs.meaning.Words.{settings_of};
ghost use Rattle.command_words.specs.meaning.Spelling.{Spelled, HasPlainName, all_words, setting_spelled};

/// Settings are read as they are written, each in one word or in two, in their order.
pub fn settings_are_read_as_they_are_written()
    ensures { (written : List Spelled) → AllByRecursion HasPlainName written →
        settings_of (all_words written) ≡ Some (map setting_spelled written) }
{}
