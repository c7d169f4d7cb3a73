//! The quantities of an instance that a port of mode out inside it may stand for. The function here is a law, which is proved and does
//! nothing when it runs.
#![tactic(auto)]

ghost use Rattle.source_laws.specs.Sources.{SourcesAreCounted};

/// An instance has no more such quantities than its unknowns are counted, and each port of mode out inside it takes another one.
pub fn sources_are_counted()
    ensures { SourcesAreCounted }
{}
