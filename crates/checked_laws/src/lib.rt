//! What the tests behind the walk tell of a flat design. The function here is a law, which is proved and does nothing when it runs.
#![tactic(auto)]

ghost use Rattle.checked_laws.specs.Checked.{FlatDesignsAreChecked};

/// No signal of a flat design has two drivers, its frame is within its limit, and each instance has as many equations as unknowns
/// where no count fails.
pub fn flat_designs_are_checked()
    ensures { FlatDesignsAreChecked }
{}
