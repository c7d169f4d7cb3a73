//! As many equations as unknowns. The function here is a law, which is proved and does nothing when it runs.
#![tactic(auto)]

ghost use Rattle.count_laws.specs.Counts.{EquationsMatchUnknowns};

/// A flat design whose instances have as many equations as unknowns has as many itself.
pub fn equations_match_unknowns()
    ensures { EquationsMatchUnknowns }
{}
