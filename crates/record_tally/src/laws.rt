//! A law about counting: it is the contract of a function that does nothing.

ghost use Rattle.std.specs.Prelude.{◌≡◌, ℕ, List};
ghost use Rattle.graph_types.specs.meaning.Graph.{Graph};
ghost use Rattle.mining_model.specs.meaning.Embeddings.{Pattern};
ghost use Rattle.record_text.specs.declared.record_format.RecordFormat.TheVariants.{One};
ghost use Rattle.record_text.specs.meaning.Text.{history_text};
ghost use Rattle.record_tally.specs.meaning.Lines.{lines_beginning};
ghost use Rattle.record_tally.specs.meaning.Totals.{added_upto, removed_upto};

/// In the text of a history in format 1 as many lines begin with `R` as pieces go in all its timestamps, as many with `N`
/// as pieces come, and as many with `D` as there are timestamps.
pub fn a_history_is_counted()
    ensures removed { (pattern : Pattern) (first : Graph) (later : List Graph) (m : ℕ) →
        lines_beginning 82 (history_text One pattern first later m) ≡ removed_upto pattern first later m }
    ensures added { (pattern : Pattern) (first : Graph) (later : List Graph) (m : ℕ) →
        lines_beginning 78 (history_text One pattern first later m) ≡ added_upto pattern first later m }
    ensures done { (pattern : Pattern) (first : Graph) (later : List Graph) (m : ℕ) →
        lines_beginning 68 (history_text One pattern first later m) ≡ m }
{}
