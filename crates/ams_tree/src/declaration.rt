use crate::expression::{Expr, Name};
use ams_token::Place;
use sqlite_items::Items;

#[derive(Clone, Copy, Debug, PartialEq, Eq)]
pub enum Direction {
    To,
    Downto,
}

#[derive(Drop)]
pub struct Range {
    pub left: Expr,
    pub direction: Direction,
    pub right: Expr,
}

/// The two ends of a rising range.
#[derive(Drop)]
pub struct Bounds {
    pub low: Expr,
    pub high: Expr,
}

/// A type with the bounds of its index and the range of its values, where they are written.
#[derive(Drop)]
pub struct SubtypeIndication {
    pub mark: Name,
    pub index: Option<Range>,
    pub bounds: Option<Bounds>,
}

/// The mode of a port, as it is written.
#[derive(Clone, Copy, Debug, PartialEq, Eq)]
pub enum Mode {
    In,
    Out,
}

/// A declaration of generics. `constant` has the place of that word, where it is written.
#[derive(Drop)]
pub struct Generic {
    pub constant: Option<Place>,
    pub names: Items<Name>,
    pub mode_in: bool,
    pub indication: SubtypeIndication,
    pub default: Option<Expr>,
}

/// A declaration of ports. The place is that of the word with which it begins; that of a signal may be left out.
#[derive(Drop)]
pub enum Port {
    Signal(Option<Place>, Items<Name>, Option<Mode>, SubtypeIndication, Option<Expr>),
    Terminal(Place, Items<Name>, Name),
    Quantity(Place, Items<Name>, Option<Mode>, SubtypeIndication),
}

/// A declaration of an architecture, with the place of its first word.
#[derive(Drop)]
pub enum Declaration {
    Signal(Place, Items<Name>, SubtypeIndication, Option<Expr>),
    Constant(Place, Items<Name>, SubtypeIndication, Expr),
    /// Terminals, and their nature.
    Terminal(Place, Items<Name>, Name),
    /// Free quantities.
    Quantity(Place, Items<Name>, SubtypeIndication, Option<Expr>),
    /// Across quantities, through quantities, and the terminals of their branch.
    Across(Place, Items<Name>, Option<Items<Name>>, Name, Option<Name>),
    /// Through quantities, and the terminals of their branch.
    Through(Place, Items<Name>, Name, Option<Name>),
    /// A nature, the type of its across quantities, that of its through quantities, and its reference terminal.
    Nature(Place, Name, Name, Name, Name),
    /// An enumeration type with its literals.
    Enumeration(Place, Name, Items<Name>),
    Subtype(Place, Name, SubtypeIndication),
}

/// A declaration of a process, with the place of its first word.
#[derive(Drop)]
pub enum ProcessDeclaration {
    Variable(Place, Items<Name>, SubtypeIndication, Option<Expr>),
    Constant(Place, Items<Name>, SubtypeIndication, Expr),
}
