//! What a replay uses of the attempts of a run. The function here is a law, which is proved and does nothing when it runs.
#![tactic(auto)]

mod laws;

pub use laws::attempts_are_own_or_reused;
