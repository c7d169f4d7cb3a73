//! Selectors of breaks have their dots in equations. The function here is a law, which is proved and does nothing when it runs.
#![tactic(auto)]

ghost use Rattle.selector_laws.specs.Selectors.{SelectorsHaveDots};

/// A quantity whose dot is named in an equation that is made has its dot in it.
pub fn selectors_have_dots()
    ensures { SelectorsHaveDots }
{}
