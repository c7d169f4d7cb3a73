//! What an instance counts is made. The function here is a law, which is proved and does nothing when it runs.
#![tactic(auto)]

ghost use Rattle.made_count_laws.specs.Counts.{InstancesMakeCounts};

/// An instance that breaks no rule makes as many equations and quantities as it counts.
pub fn counts_are_made()
    ensures { InstancesMakeCounts }
{}
