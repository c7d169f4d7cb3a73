//! What is noted while the associations of an instance are read. The function here is a law, which is proved and does nothing when
//! it runs.
#![tactic(auto)]

ghost use Rattle.association_note_laws.specs.Associations.{AssociationsNoteAlike};

/// Two readings of an instance's associations note the same dots and thresholds, whatever notes they begin with.
pub fn associations_note_alike()
    ensures { AssociationsNoteAlike }
{}
