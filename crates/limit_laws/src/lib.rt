//! The limits that a flat design keeps. The function here is a law, which is proved and does nothing when it runs.
#![tactic(auto)]

ghost use Rattle.limit_laws.specs.Limits.{FlatDesignsKeepLimits};

/// A flat design keeps its limits, and each object has a number, if the lists of the text's tree are no longer than a text.
pub fn flat_designs_keep_limits()
    ensures { FlatDesignsKeepLimits }
{}
