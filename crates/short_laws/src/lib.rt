//! How long the lists of a text's tree are. The function here is a law, which is proved and does nothing when it runs.
#![tactic(auto)]

ghost use Rattle.short_laws.specs.Short.{TextsWriteShortTrees};

/// The statements of an architecture, and the branches of its choices, are no more than the tokens.
pub fn texts_write_short_trees()
    ensures { TextsWriteShortTrees }
{}
