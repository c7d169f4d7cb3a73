//! What holds of the flat design that a walk leaves, in its own objects. The function here is a law, which is proved and does
//! nothing when it runs.
#![tactic(auto)]

ghost use Rattle.site_invariant_laws.specs.Laws.{SitesHold};

/// Objects, equations, processes, dots and thresholds of a walk's design are those of a well-formed one.
pub fn sites_hold()
    ensures { SitesHold }
{}
