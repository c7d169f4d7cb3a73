//! What laws of statements ask of the scope of an architecture at an instance. The function here is a law, which is proved and does
//! nothing when it runs.
#![tactic(auto)]

ghost use Rattle.architecture_laws.specs.Architectures.{ArchitecturesStand};

/// The scope of an architecture at an instance is as the laws of its statements ask.
pub fn architectures_stand()
    ensures { ArchitecturesStand }
{}
