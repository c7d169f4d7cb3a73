//! Three small designs for the analogue solver, each built object by object.
#![tactic(auto)]

ghost use Rattle.design_rules.specs.Design.{IsDesign};
ghost use Rattle.solver_designs.specs.Designs.{charged_capacitor, polynomial_slope, chosen_level};

mod capacitor;
mod level;
mod parts;
mod slope;

pub use capacitor::charged_capacitor;
pub use level::chosen_level;
pub use slope::polynomial_slope;

/// The designs are well formed. It is proved, and does nothing when it runs.
pub fn designs_are_well_formed()
    ensures capacitor { IsDesign charged_capacitor }
    ensures slope { IsDesign polynomial_slope }
    ensures level { IsDesign chosen_level }
{}
