//! What the text of a unit is read to.
use crate::fault::Notes;
use flat_design::Objects;
use name_scope::Scope;
use sqlite_items::Items;

/// What is read so far: the names, what is noted, the objects, the path of the instance, and how many natures there are.
#[derive(Drop)]
pub struct Book {
    pub scope: Scope,
    pub notes: Notes,
    pub objects: Objects,
    pub path: Items<u8>,
    pub natures: u32,
}
