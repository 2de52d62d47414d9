//! Laws about whole jobs: each is the contract of a function that does nothing.

ghost use Rattle.std.specs.Prelude.{◌≡◌, ◌≤◌, ℕ, List, Some};
ghost use Rattle.job_io.specs.meaning.Lines.{Line};
ghost use Rattle.mining_model.specs.meaning.Embeddings.{Pattern, embeddings};
ghost use Rattle.mining_model.specs.meaning.History.{snapshot};
ghost use Rattle.snapshot_fold.specs.meaning.FoldText.{fold_text};
ghost use Rattle.snapshot_fold.specs.meaning.Records.{pieces_of};
ghost use Rattle.tesseract.specs.declared.terms.Terms.{Terms};
ghost use Rattle.job.specs.meaning.Judging.{Verdict, verdict};
ghost use Rattle.tesseract.specs.meaning.Output.{IsCountable, IsWrittenUpto, output};

/// What is written for a job with a program is the text of its timestamps: of all of them, or of those
/// before the first that has more records than allowed.
pub fn text_upto()
    ensures { (terms : Terms) (v : Verdict) (pattern : Pattern) → v.pattern ≡ Some pattern →
        (m : ℕ) × IsWrittenUpto terms v pattern m }
{}

/// Folding what is written for a job up to any timestamp that is written gives the embeddings of the
/// snapshot there, each once and in their order.
pub fn records_tell_embeddings()
    ensures { (terms : Terms) (lines : List Line) (pattern : Pattern) (m t : ℕ) →
        IsCountable terms → (verdict terms.lines lines).pattern ≡ Some pattern →
        IsWrittenUpto terms (verdict terms.lines lines) pattern m → t ≤ m →
        fold_text (output terms (verdict terms.lines lines)).text t
        ≡ Some (pieces_of pattern.mode (embeddings pattern (snapshot (verdict terms.lines lines).groups t))) }
{}
