//! Declarations read twice, as the check of types reads them and at an instance. The functions here are laws, which are proved and
//! do nothing when they run.
#![tactic(auto)]

ghost use Rattle.alike_books.specs.Books.{DeclarationsFollow, PartsFollow};

/// Subtypes, and values that declarations give.
pub fn parts_follow()
    ensures { PartsFollow }
{}

/// Where the check breaks no rule in the declarations of an architecture, their names stand for alike things at an instance, which
/// breaks no rule but such as the walk asks for.
pub fn declarations_follow()
    ensures { DeclarationsFollow }
{}
