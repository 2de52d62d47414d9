//! The laws of the records: each is the contract of a function that does nothing.

ghost use Rattle.std.specs.Prelude.{◌≡◌, ◌++◌, ◌≤◌, ℕ, List, [], Option, Some, length, map};
ghost use Rattle.graph_types.specs.meaning.Graph.{Graph};
ghost use Rattle.graph_types.specs.meaning.Piece.{PieceValue, most_members};
ghost use Rattle.mining_model.specs.meaning.Embeddings.{Pattern, embeddings};
ghost use Rattle.mining_model.specs.meaning.History.{graph_at};
ghost use Rattle.record_text.specs.meaning.Text.{count_after, history_text, step_text, total_at};
ghost use Rattle.record_text.specs.declared.record_format.RecordFormat.{RecordFormat};
ghost use Rattle.record_text.specs.meaning.Writable.{IsCount, IsStamp};
ghost use Rattle.snapshot_fold.specs.meaning.Accepted.{IsAccepted, TellsHistory, said_by};
ghost use Rattle.snapshot_fold.specs.meaning.FoldText.{fold_text};
ghost use Rattle.snapshot_fold.specs.meaning.Records.{IsRecordable, IsTellable, history_records, pieces_of, step_records};

/// Folding the records of a history up to a timestamp gives the embeddings of the graph there, each once
/// and in their order.
pub fn records_tell_embeddings()
    ensures { (format : RecordFormat) (pattern : Pattern) (first : Graph) (later : List Graph) (m t : ℕ) →
        IsTellable format pattern first later m → t ≤ m →
        fold_text (history_text format pattern first later m) t
        ≡ Some (pieces_of pattern.mode (embeddings pattern (graph_at first later t))) }
{}

/// The number of NEW records less that of REM records up to a timestamp is how many embeddings are there.
pub fn a_total_counts_embeddings()
    ensures { (pattern : Pattern) (first : Graph) (later : List Graph) (t : ℕ) →
        embeddings pattern first ≡ [] →
        total_at pattern first later t ≡ length (embeddings pattern (graph_at first later t)) }
{}

/// What a text tells stays, whatever follows it.
pub fn a_longer_text_tells_the_same()
    ensures { (text more : List ℕ) (t : ℕ) (pieces : List PieceValue) →
        fold_text text t ≡ Some pieces → fold_text (text ++ more) t ≡ Some pieces }
{}

/// The lines of a timestamp's text are read as its records: what goes, what comes, and that it is done.
pub fn a_timestamp_says_its_records()
    ensures { (count : Option ℕ) (pattern : Pattern) (before now : Graph) (t : ℕ) →
        pattern.size ≤ most_members → IsRecordable before → IsRecordable now → IsStamp t →
        IsCount (count_after pattern before now count) →
        said_by (step_text count pattern before now t) ≡ map Some (step_records count pattern before now t) }
{}

/// What is written for a history says its records, and is taken without a refusal, line by line up to its last
/// timestamp; and cut off anywhere it tells nothing but the embeddings, at the timestamps whose line stands
/// before the cut.
pub fn a_history_is_accepted()
    ensures records { (format : RecordFormat) (pattern : Pattern) (first : Graph) (later : List Graph) (m : ℕ) →
        IsTellable format pattern first later m →
        said_by (history_text format pattern first later m) ≡ map Some (history_records format pattern first later m) }
    ensures whole { (format : RecordFormat) (pattern : Pattern) (first : Graph) (later : List Graph) (m : ℕ) →
        IsTellable format pattern first later m → IsAccepted (history_text format pattern first later m) m }
    ensures cut_off { (format : RecordFormat) (pattern : Pattern) (first : Graph) (later : List Graph) (m : ℕ)
        (written more : List ℕ) →
        IsTellable format pattern first later m → written ++ more ≡ history_text format pattern first later m →
        TellsHistory pattern first later m written }
{}
