//! The laws of migration: each is the contract of a function that does nothing.

ghost use Rattle.std.specs.Prelude.{◌≡◌, ◌≤◌, ◌^◌, ℕ, List, Ok, Some, length};
ghost use Rattle.graph_types.specs.meaning.Graph.{Graph};
ghost use Rattle.graph_types.specs.meaning.Piece.{PieceValue};
ghost use Rattle.job_io.specs.meaning.Lines.{lines_of, whole_lines_of};
ghost use Rattle.mining_model.specs.meaning.Embeddings.{Pattern};
ghost use Rattle.record_text.specs.declared.record_format.RecordFormat.TheVariants.{One, Two};
ghost use Rattle.record_text.specs.meaning.Text.{history_text};
ghost use Rattle.snapshot_fold.specs.meaning.FoldText.{fold_text};
ghost use Rattle.snapshot_fold.specs.meaning.Folding.{fold_outcome};
ghost use Rattle.snapshot_fold.specs.meaning.Records.{IsTellable};
ghost use Rattle.record_migration.specs.meaning.Migrated.{migrated_text};

/// Where a text is done with a timestamp before a line is refused, folding what was migrated of it gives the same
/// pieces there.
pub fn a_migrated_text_tells_the_same()
    ensures { (most : ℕ) (text : List ℕ) (t : ℕ) (pieces : List PieceValue) →
        most ≤ 10 ^ 19 →
        fold_outcome most (Some t) (lines_of text) ≡ Ok pieces →
        fold_text (migrated_text most (whole_lines_of text)) t ≡ Some pieces }
{}

/// What is written for a history in format 1 is migrated to what is written for it in format 2, where no more lines
/// than are allowed stand in the former.
pub fn a_history_is_migrated()
    ensures { (pattern : Pattern) (first : Graph) (later : List Graph) (m most : ℕ) →
        most ≤ 10 ^ 19 →
        IsTellable One pattern first later m →
        length (whole_lines_of (history_text One pattern first later m)) ≤ most →
        migrated_text most (whole_lines_of (history_text One pattern first later m))
        ≡ history_text Two pattern first later m }
{}
