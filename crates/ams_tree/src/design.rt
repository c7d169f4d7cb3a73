use crate::concurrent::Concurrent;
use crate::declaration::{Declaration, Generic, Port};
use crate::expression::Name;
use sqlite_items::Items;

/// A selected name of a use clause: identifiers, and whether `all` stands last.
#[derive(Drop)]
pub struct Path {
    pub names: Items<Name>,
    pub all: bool,
}

/// An entity. `word_end` tells whether the word `entity` stands behind `end`, and `end` is the name there.
#[derive(Drop)]
pub struct Entity {
    pub name: Name,
    pub generics: Items<Generic>,
    pub ports: Items<Port>,
    pub word_end: bool,
    pub end: Option<Name>,
}

/// An architecture. `word_end` tells whether the word `architecture` stands behind `end`, and `end` is the name there.
#[derive(Drop)]
pub struct Architecture {
    pub name: Name,
    pub entity: Name,
    pub declarations: Items<Declaration>,
    pub statements: Items<Concurrent>,
    pub word_end: bool,
    pub end: Option<Name>,
}

#[derive(Drop)]
pub enum DesignUnit {
    Library(Items<Name>),
    Use(Items<Path>),
    Entity(Entity),
    Architecture(Architecture),
}

#[derive(Drop)]
pub struct DesignFile {
    pub units: Items<DesignUnit>,
}
