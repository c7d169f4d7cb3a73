//! Units of a file without faults. The function here is a law, which is proved and does nothing when it runs.
#![tactic(auto)]

ghost use Rattle.alike_units.specs.Units.{UnitsFollow};

/// Where a file has no faults the check noted none in each of its units, and the statements of an architecture that are read a
/// second time break no rule but such as an instance answers.
pub fn units_follow()
    ensures { UnitsFollow }
{}
