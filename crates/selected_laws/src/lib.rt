//! A selector of a break has its dot in an equation of the design. The function here is a law, which is proved and does nothing when
//! it runs.
#![tactic(auto)]

ghost use Rattle.selected_laws.specs.Selected.{SelectorsAreMade};

/// A quantity whose dot is named in an equation of an instance has its dot in an equation of the design, if each statement is made.
pub fn selectors_are_made()
    ensures { SelectorsAreMade }
{}
