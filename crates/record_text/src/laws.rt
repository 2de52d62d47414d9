//! Laws about records as text: each is the contract of a function that does nothing.

ghost use Rattle.std.specs.Prelude.{◌≡◌, ◌++◌, ℕ, List, Option, Some, codes, length};
ghost use Rattle.graph_types.specs.meaning.Graph.{Graph};
ghost use Rattle.mining_model.specs.meaning.Embeddings.{Pattern};
ghost use Rattle.graph_types.specs.meaning.Piece.{PieceValue};
ghost use Rattle.record_text.specs.meaning.Text.{count_at, done_text, head_text, record_line, text_from, text_upto};
ghost use Rattle.record_text.specs.meaning.Grammar.{record_of};
ghost use Rattle.record_text.specs.meaning.Writable.{IsCount, IsStamp, IsWritable};
ghost use Rattle.record_text.specs.declared.read.RecordLine.TheVariants.{Head, Rem, Add, Done};
ghost use Rattle.record_text.specs.declared.record_format.RecordFormat.{RecordFormat};

/// Reading is the inverse of writing: a line that was written, without its LF, is read as the record
/// that it was written for.
pub fn reads_what_is_written()
    ensures removed { (t : ℕ) (piece : PieceValue) (line : List ℕ) → IsStamp t → IsWritable piece →
        line ++ codes "\n" ≡ record_line (codes "REM") t piece.members → record_of line ≡ Some (Rem t piece) }
    ensures added { (t : ℕ) (piece : PieceValue) (line : List ℕ) → IsStamp t → IsWritable piece →
        line ++ codes "\n" ≡ record_line (codes "NEW") t piece.members → record_of line ≡ Some (Add t piece) }
    ensures done { (t : ℕ) (count : Option ℕ) (line : List ℕ) → IsStamp t → IsCount count →
        line ++ codes "\n" ≡ done_text t count → record_of line ≡ Some (Done t count) }
    ensures head { (line : List ℕ) → line ++ codes "\n" ≡ head_text → record_of line ≡ Some Head }
{}

/// The text of a history, made one graph after another, is that of timestamps 1 to their number.
pub fn text_of_each_timestamp()
    ensures { (format : RecordFormat) (pattern : Pattern) (first : Graph) (later : List Graph) →
        text_from (count_at format pattern first later 0) pattern first 0 later
        ≡ text_upto format pattern first later (length later) }
{}
