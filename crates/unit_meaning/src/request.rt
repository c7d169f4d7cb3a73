//! What stands at an instance.
use ams_token::Place;
use ams_value::Val;
use name_scope::{Kind, Thing};
use sqlite_items::Items;

/// An actual of a generic or of a port.
#[derive(Clone, Copy)]
pub enum Actual {
    Open,
    /// A name, by its number, and what it stands for.
    Object(u32, Thing),
    /// Another expression: its type, and its value where that is known.
    Value(Kind, Option<Val>),
}

/// An association: its place, the formal before the arrow where one is written, and the actual.
#[derive(Clone, Copy)]
pub struct Assigned {
    pub place: Place,
    pub formal: Option<u32>,
    pub actual: Actual,
}

/// What stands at an instance: its path, its entity and its architecture where one is named, its associations, and the
/// instance round it.
#[derive(Drop)]
pub struct Request {
    pub path: Items<u8>,
    pub entity: u32,
    pub architecture: Option<u32>,
    pub generics: Items<Assigned>,
    pub ports: Items<Assigned>,
    pub outer: u32,
}
