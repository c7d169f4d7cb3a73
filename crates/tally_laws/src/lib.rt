//! Counts of equations and unknowns over the instances of a walk. The function here is a law, which is proved and does nothing when it
//! runs.
#![tactic(auto)]

ghost use Rattle.tally_laws.specs.Tally.{WalksAreTallied};

/// The instances of a walk count, all together, the equations of the design and its quantities but those across branches.
pub fn walks_are_tallied()
    ensures { WalksAreTallied }
{}
