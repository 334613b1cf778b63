//! Laws of the small source, as contracts: reading is the relation, and a source has one tree.

ghost use Rattle.std.specs.Prelude.{◌≡◌, ℕ, List, Option, Some};
ghost use Rattle.edt_run.specs.Forest.{Forest};
ghost use Rattle.edt_run.specs.Reading.{reading};
ghost use Rattle.edt_run.specs.Small.{IsSmall};
ghost use Rattle.edt_run.specs.Answer.{Answer, Given};
ghost use Rattle.edt_run.specs.Job.{JobData};
ghost use Rattle.edt_run.specs.Promises.{IsAnswer, EndsWithAnswer};

/// The bytes that are read as a tree are a small source of that tree, and every small source is
/// read as its tree.
pub(crate) fn sources_are_read()
    ensures sound { (bytes : List ℕ) (f : Forest) → reading bytes ≡ Some f → IsSmall bytes f }
    ensures complete { (bytes : List ℕ) (f : Forest) → IsSmall bytes f → reading bytes ≡ Some f }
{}

/// A source has at most one tree.
pub(crate) fn one_tree()
    ensures { (bytes : List ℕ) (f g : Forest) → IsSmall bytes f → IsSmall bytes g → f ≡ g }
{}

/// A run has one answer: over the same words and what was read there is one status, one output and
/// one line.
pub(crate) fn one_answer()
    ensures { (job : Option JobData) (given : Given) (a b : Answer) → IsAnswer job given a
        → IsAnswer job given b → a ≡ b }
{}

/// A run over files that don't fail and sinks with sure room ends with its answer, or with want of
/// memory: what a run promises leaves no other status.
pub(crate) fn sure_runs_end_with_the_answer()
    ensures { EndsWithAnswer }
{}
