//! Declarations at an instance give names that stand for things of the flat design, and objects that are well formed in it. The
//! function here is a law, which is proved and does nothing when it runs.
#![tactic(auto)]

ghost use Rattle.declaration_laws.specs.Books.{DeclarationsHold};

/// What declarations give is right for the flat design that they become a part of.
pub fn declarations_hold()
    ensures { DeclarationsHold }
{}
