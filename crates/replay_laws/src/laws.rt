//! Each attempt of a run is used once.
ghost use Rattle.replay_laws.specs.Sums.{DesignsUseEach, ReplaysEnd, ReplaysUseEach};

/// Whatever the schedule is, the engine used each attempt of the lockstep run once: it made it itself, or found it saved. Attempts
/// that were saved and withdrawn count in neither number.
#[tactic(auto, using(crate::proofs::Spending::replays_end, crate::proofs::Spending::replays_use_each))]
pub fn attempts_are_own_or_reused()
    ensures ended { ReplaysEnd }
    ensures systems { ReplaysUseEach }
    ensures designs { DesignsUseEach }
{}
