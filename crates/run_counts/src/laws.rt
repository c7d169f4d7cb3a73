//! What the numbers of runs are. Each law is proved, and does nothing when it runs.
ghost use Rattle.run_counts.specs.Counts.{CountsJoin};
ghost use Rattle.run_counts.specs.FewMoves.{RunsHaveFewMoves};

/// Events in two parts are counted one part after the other.
#[tactic(auto)]
pub fn counts_join()
    ensures { CountsJoin }
{}

/// A run has at most one solution more than cycles, and so few moves.
#[tactic(auto)]
pub fn runs_have_few_moves()
    ensures { RunsHaveFewMoves }
{}
