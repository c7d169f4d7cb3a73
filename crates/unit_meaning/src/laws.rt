//! Small files, worked by hand.
ghost use Rattle.unit_meaning.specs.Worked.{WorkedUnits};

/// What some small files are found to be. It is proved by computation, and does nothing when it runs.
#[tactic(auto, using(crate::proofs::WorkedRows::rows))]
pub fn small_files_are_worked()
    ensures { WorkedUnits }
{}
