//! The scopes of a flat design's units hold: each name stands for something that the design has. The function here is a law,
//! which is proved and does nothing when it runs.
#![tactic(auto)]

ghost use Rattle.scope_laws.specs.Laws.{ScopesHold};

/// The predefined names hold; so does a scope with one more name that does, a region inside, and what a process sees.
pub fn scopes_hold()
    ensures { ScopesHold }
{}
