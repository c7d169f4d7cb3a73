//! What the trees have that texts spell. The function here is a law, which is proved and does nothing when it runs.
#![tactic(auto)]

ghost use Rattle.written_laws.specs.Written.{TextsWriteTrees};

/// Each list of a tree that the grammar begins with a first member has one: literals, waveforms, alternatives, choices.
pub fn texts_write_trees()
    ensures { TextsWriteTrees }
{}
