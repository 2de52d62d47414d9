//! Laws of judging: each is the contract of a function that does nothing.

ghost use Rattle.std.specs.Prelude.{◌≡◌, ℕ, List, None};
ghost use Rattle.graph_types.specs.meaning.Graph.{empty_graph};
ghost use Rattle.job_io.specs.meaning.Lines.{Line};
ghost use Rattle.mining_model.specs.meaning.History.{Group};
ghost use Rattle.job.specs.meaning.Following.{Accepts, IsBounded, LeadsOn};
ghost use Rattle.job.specs.meaning.Judging.{Stage, accepted, judgement, moved, verdict};

/// Groups that are accepted lead from the graph of a timestamp to that of the next one, and nothing else does.
pub fn groups_alone_change_the_graph()
    ensures moved { (most n : ℕ) (stage next : Stage) (bytes : List ℕ) →
        judgement most n stage bytes ≡ moved next → LeadsOn stage next }
    ensures accepted { (most n : ℕ) (stage next : Stage) (bytes : List ℕ) (us : Group) →
        judgement most n stage bytes ≡ accepted us next → Accepts stage us next }
{}

/// Whatever the lines, what is accepted of them has these bounds.
pub fn what_is_accepted_is_bounded()
    ensures { (most : ℕ) (lines : List Line) → IsBounded most (verdict most lines) }
{}
