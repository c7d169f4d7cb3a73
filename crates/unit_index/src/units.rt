//! An index of design units (IEEE 1076, 13.1).
ghost use Rattle.std.specs.Prelude.{◌≡◌, ◌+◌, ◌<◌, length, Some, IfOk};
ghost use Rattle.std.specs.List.{list_any};
ghost use Rattle.std.specs.Option.{option_copied};
ghost use Rattle.unit_meaning.specs.Associations as associations;
ghost use Rattle.unit_meaning.specs.Units as meaning;
ghost use Rattle.unit_index.specs.Index as spec;

use ams_tree::{Architecture, DesignUnit, Entity};
use indexmap::IndexMap;
use std::alloc::{AllocError, Global};
use std::marker::Model;

/// The first units of a file, which are found by their names without looking at the others. Contracts see the units of the
/// file and how many of them are known.
#[derive(Drop)]
pub struct Units<'a> {
    all: &'a [DesignUnit],
    count: usize,
    /// Where the first entity of a name stands.
    entities: IndexMap<u32, usize>,
    /// Where the last architecture of an entity stands.
    architectures: IndexMap<u32, usize>,
    /// Where the last architecture of an entity and of a name stands.
    named: IndexMap<(u32, u32), usize>,
}

impl<'a> Model for Units<'a> {
    ghost use Rattle.std.specs.Prelude.{ℕ, nat_eq, ◌&&◌};
    ghost use Rattle.indexmap.specs.IndexMap.{get};
    ghost use Rattle.unit_index.specs.Index.{Known, known_code, AreFound};

    ghost Value = { Known };

    ghost coded = { known_code };

    ghost view = { λ u. record { all = u.all.now; count = u.count } };

    ghost invariant = { λ u. AreFound u.all.now u.count (λ x. get nat_eq u.entities x) (λ x. get nat_eq u.architectures x)
        (λ x y. get (λ (p q : ℕ × ℕ). nat_eq p.0 q.0 && nat_eq p.1 q.1) u.named (x, y)) };
}

fn entity_of(unit: &DesignUnit) -> Option<&Entity>
    ensures { option_copied result ≡ spec.entity_of unit.now }
{
    match unit {
        DesignUnit::Entity(entity) => Some(entity),
        DesignUnit::Library(_) | DesignUnit::Use(_) | DesignUnit::Architecture(_) => None,
    }
}

fn architecture_of(unit: &DesignUnit) -> Option<&Architecture>
    ensures { option_copied result ≡ spec.architecture_of unit.now }
{
    match unit {
        DesignUnit::Architecture(architecture) => Some(architecture),
        DesignUnit::Library(_) | DesignUnit::Use(_) | DesignUnit::Entity(_) => None,
    }
}

fn entity_at(all: &[DesignUnit], place: usize) -> Option<&Entity>
    ensures { option_copied result ≡ spec.entity_at all.now (Some place) }
{
    match all.get(place) {
        Some(unit) => entity_of(unit),
        None => None,
    }
}

fn architecture_at(all: &[DesignUnit], place: usize) -> Option<&Architecture>
    ensures { option_copied result ≡ spec.architecture_at all.now (Some place) }
{
    match all.get(place) {
        Some(unit) => architecture_of(unit),
        None => None,
    }
}

impl<'a> Units<'a> {
    /// The index of a file of which no unit is known yet.
    pub fn new(alloc: Global, all: &'a [DesignUnit]) -> Units<'a>
        ensures { result ≡ record { all = all.now; count = 0 } }
    {
        Units {
            all,
            count: 0,
            entities: IndexMap::new(alloc),
            architectures: IndexMap::new(alloc),
            named: IndexMap::new(alloc),
        }
    }

    /// The first entity of a name.
    pub fn entity(&self, name: u32) -> Option<&'a Entity>
        ensures { option_copied result ≡ associations.entity_in (spec.known self.now) name }
    {
        match self.entities.get(&name) {
            Some(place) => entity_at(self.all, *place),
            None => None,
        }
    }

    fn last_architecture(&self, entity: u32) -> Option<&'a Architecture>
        ensures { option_copied result ≡ associations.architecture_in (spec.known self.now) entity None }
    {
        match self.architectures.get(&entity) {
            Some(place) => architecture_at(self.all, *place),
            None => None,
        }
    }

    fn named_architecture(&self, entity: u32, name: u32) -> Option<&'a Architecture>
        ensures { option_copied result ≡ associations.architecture_in (spec.known self.now) entity (Some name) }
    {
        match self.named.get(&(entity, name)) {
            Some(place) => architecture_at(self.all, *place),
            None => None,
        }
    }

    /// The last architecture of an entity, and of a name where one is asked.
    pub fn architecture(&self, entity: u32, name: Option<u32>) -> Option<&'a Architecture>
        ensures { option_copied result ≡ associations.architecture_in (spec.known self.now) entity name }
    {
        match name {
            Some(name) => self.named_architecture(entity, name),
            None => self.last_architecture(entity),
        }
    }

    /// Whether there is an entity of a name.
    pub fn has_entity(&self, name: u32) -> bool
        ensures { result ≡ list_any (meaning.is_entity name) (spec.known self.now) }
    {
        self.entity(name).is_some()
    }

    /// Whether there is an architecture of an entity and of a name.
    pub fn has_architecture(&self, entity: u32, name: u32) -> bool
        ensures { result ≡ list_any (meaning.is_architecture entity name) (spec.known self.now) }
    {
        self.named_architecture(entity, name).is_some()
    }

    fn with_entity(self, entity: &Entity) -> Result<Units<'a>, AllocError>
        requires { spec.is_entity_next self entity.now }
        ensures { IfOk result (λ units. units ≡ spec.one_more self.entry) }
    {
        let is_new = !self.has_entity(entity.name.number);
        let Units {
            all,
            count,
            mut entities,
            architectures,
            named,
        } = self;
        if is_new {
            entities.insert(entity.name.number, count)?;
        }
        Ok(Units {
            all,
            count: count + 1,
            entities,
            architectures,
            named,
        })
    }

    fn with_architecture(self, architecture: &Architecture) -> Result<Units<'a>, AllocError>
        requires { spec.is_architecture_next self architecture.now }
        ensures { IfOk result (λ units. units ≡ spec.one_more self.entry) }
    {
        let Units {
            all,
            count,
            entities,
            mut architectures,
            mut named,
        } = self;
        let entity = architecture.entity.number;
        architectures.insert(entity, count)?;
        named.insert((entity, architecture.name.number), count)?;
        Ok(Units {
            all,
            count: count + 1,
            entities,
            architectures,
            named,
        })
    }

    fn with_other(self) -> Units<'a>
        requires { spec.is_other_next self }
        ensures { result ≡ spec.one_more self.entry }
    {
        let Units {
            all,
            count,
            entities,
            architectures,
            named,
        } = self;
        Units {
            all,
            count: count + 1,
            entities,
            architectures,
            named,
        }
    }

    /// The index with the next unit of the file.
    pub fn with_next(self) -> Result<Units<'a>, AllocError>
        requires { self.count < length self.all }
        ensures { IfOk result (λ units. units ≡ spec.one_more self.entry) }
    {
        let all = self.all;
        match &all[self.count] {
            DesignUnit::Entity(entity) => self.with_entity(entity),
            DesignUnit::Architecture(architecture) => self.with_architecture(architecture),
            DesignUnit::Library(_) | DesignUnit::Use(_) => Ok(self.with_other()),
        }
    }

    /// The index of all units of a file.
    pub fn of(alloc: Global, all: &'a [DesignUnit]) -> Result<Units<'a>, AllocError>
        ensures { IfOk result (λ units. spec.known units ≡ all.now) }
    {
        let mut units = Units::new(alloc, all);
        for i in 0..all.len() {
            units = units.with_next()?;
        }
        Ok(units)
    }
}
