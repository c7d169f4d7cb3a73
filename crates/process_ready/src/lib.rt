//! A process keeps to its types while it runs: so each of its statements can be performed, and the parameters of its loops
//! stay on the way to their last values. The function here is a law, which is proved and does nothing when it runs.
#![tactic(auto)]

ghost use Rattle.process_ready.specs.Ready.{StaysReady};

/// From a place in the text of a process whose variables have values of their types, each next thing that counts and each
/// statement leads to such a place again, and each statement can be performed.
#[tactic(auto, using(crate::proofs::Staying::stays))]
pub fn processes_stay_ready()
    ensures { StaysReady }
{}
