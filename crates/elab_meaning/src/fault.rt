//! What an expression or a declaration breaks, and what is noted while a text is read.
use ams_token::Place;
use flat_design::Threshold;
use sqlite_items::Items;

/// A broken rule. A name is told by its number in the table of names.
#[derive(Clone, Copy, Debug, PartialEq, Eq)]
pub enum Cause {
    /// A name has no declaration in its place.
    Unknown(u32),
    WrongType,
    /// A static value is asked, and something is read that changes.
    NotStatic,
    /// A name is declared twice in one region.
    Duplicate(u32),
    /// Two terminals of one branch or association have different natures.
    NatureMismatch,
    /// Two branches of a simultaneous statement have different numbers of equations.
    UnequalBranches,
}

#[derive(Clone, Copy, Debug, PartialEq, Eq)]
pub struct Fault {
    pub place: Place,
    pub cause: Cause,
}

/// What is noted while a text is read: each broken rule, and dots and thresholds by their first appearance.
#[derive(Drop)]
pub struct Notes {
    pub faults: Items<Fault>,
    /// The quantity of each dot.
    pub dots: Items<u32>,
    pub thresholds: Items<Threshold>,
}
