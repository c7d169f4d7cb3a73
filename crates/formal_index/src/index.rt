//! An index of formals (IEEE 1076, 6.5.7 and 11.7).
ghost use Rattle.std.specs.Prelude.{◌≡◌, Some, IfOk, IfSome, OnOk};
ghost use Rattle.unit_meaning.specs.Associations as associations;
ghost use Rattle.unit_meaning.specs.Units.{start_of};
ghost use Rattle.unit_index.specs.Index.{known};
ghost use Rattle.expr_types.specs.Known.{IsSoundScope};
ghost use Rattle.association_types.specs.Maps.{maps_with};
ghost use Rattle.formal_index.specs.Formals as spec;

use ams_token::Names;
use ams_tree::{Association, Concurrent, ConcurrentStatement, Entity, Instance};
use association_types::{generic_associations, instance_maps, port_associations};
use elab_meaning::Notes;
use formal_lists::{GenericFormals, PortFormals, generic_formals, port_formals};
use indexmap::IndexMap;
use name_scope::Scope;
use sqlite_items::Items;
use std::alloc::{AllocError, Global};
use std::marker::Model;
use unit_index::Units;

/// The formals of an entity.
#[derive(Drop)]
pub struct EntityFormals {
    pub generics: GenericFormals,
    pub ports: PortFormals,
}

/// The units of a file, with the formals of entities. Contracts see the texts of names and the units alone.
#[derive(Drop)]
pub struct FormalIndex<'a> {
    names: &'a Names,
    units: &'a Units<'a>,
    /// The formals of the first entity of a name.
    formals: IndexMap<u32, EntityFormals>,
}

impl<'a> Model for FormalIndex<'a> {
    ghost use Rattle.std.specs.Prelude.{nat_eq};
    ghost use Rattle.indexmap.specs.IndexMap.{get};
    ghost use Rattle.unit_index.specs.Index.{known};
    ghost use Rattle.formal_index.specs.Formals.{File, file_code, AreFormals};

    ghost Value = { File };

    ghost coded = { file_code };

    ghost view = { λ f. record { texts = f.names.now; units = known f.units.now } };

    ghost invariant = { λ f. AreFormals f.names.now (known f.units.now) (λ x. get nat_eq f.formals x) };
}

fn formals_of(alloc: Global, names: &Names, entity: &Entity) -> Result<EntityFormals, AllocError>
    ensures { IfOk result (λ formals. spec.IsOf names.now (Some entity.now) formals) }
{
    let generics = generic_formals(alloc, names, entity)?;
    let ports = port_formals(alloc, entity)?;
    Ok(EntityFormals { generics, ports })
}

fn list_or(list: &Option<Items<Association>>) -> &[Association]
    ensures { result.now ≡ associations.list_or list.now }
{
    match list {
        Some(list) => list.as_slice(),
        None => &[],
    }
}

/// Notes what the associations of an instance break, by the formals of its entity.
fn judge_by(
    alloc: Global,
    names: &Names,
    start: &Scope,
    scope: &Scope,
    formals: &EntityFormals,
    instance: &Instance,
    notes: &mut Notes,
) -> Result<(), AllocError>
    requires { IsSoundScope scope.now }
    ensures { OnOk result (notes.new ≡ (maps_with names.now start.now scope.now formals.now.generics formals.now.ports instance.now notes.old).0) }
{
    let all = list_or(&instance.generics);
    let generics = generic_associations(alloc, names, scope, &formals.generics, all, notes)?;
    drop(generics);
    let all = list_or(&instance.ports);
    let ports = port_associations(alloc, names, start, scope, &formals.ports, all, notes)?;
    drop(ports);
    Ok(())
}

impl<'a> FormalIndex<'a> {
    /// The index without any formals.
    pub fn new(alloc: Global, names: &'a Names, units: &'a Units<'a>) -> FormalIndex<'a>
        ensures { result ≡ record { texts = names.now; units = known units.now } }
    {
        FormalIndex {
            names,
            units,
            formals: IndexMap::new(alloc),
        }
    }

    fn with(
        self,
        alloc: Global,
        number: u32,
        entity: &Entity,
    ) -> Result<FormalIndex<'a>, AllocError>
        requires { associations.entity_in self.units number ≡ Some entity.now }
        ensures { IfOk result (λ index. index ≡ self.entry) }
    {
        let FormalIndex {
            names,
            units,
            mut formals,
        } = self;
        let read = formals_of(alloc, names, entity)?;
        formals.insert(number, read)?;
        Ok(FormalIndex {
            names,
            units,
            formals,
        })
    }

    fn with_entity(self, alloc: Global, number: u32) -> Result<FormalIndex<'a>, AllocError>
        ensures { IfOk result (λ index. index ≡ self.entry) }
    {
        if self.formals.contains_key(&number) {
            return Ok(self);
        }
        match self.units.entity(number) {
            Some(entity) => self.with(alloc, number, entity),
            None => Ok(self),
        }
    }

    fn with_statement(
        self,
        alloc: Global,
        statement: &ConcurrentStatement,
    ) -> Result<FormalIndex<'a>, AllocError>
        ensures { IfOk result (λ index. index ≡ self.entry) }
    {
        match statement {
            ConcurrentStatement::Instance(instance) => {
                self.with_entity(alloc, instance.entity.number)
            }
            _ => Ok(self),
        }
    }

    /// The index with the formals of the entities of which there are instances among these statements.
    pub fn of(
        alloc: Global,
        names: &'a Names,
        units: &'a Units<'a>,
        all: &[Concurrent],
    ) -> Result<FormalIndex<'a>, AllocError>
        ensures { IfOk result (λ index. index ≡ record { texts = names.now; units = known units.now }) }
    {
        let mut index = FormalIndex::new(alloc, names, units);
        for written in all {
            index = index.with_statement(alloc, &written.statement)?;
        }
        Ok(index)
    }

    /// The formals of the first entity of a name, where they were read.
    pub fn formals(&self, name: u32) -> Option<&EntityFormals>
        ensures { IfSome result (λ formals. spec.IsOf self.now.texts (associations.entity_in self.now.units name) formals.now) }
    {
        self.formals.get(&name)
    }

    /// Notes what the associations of an instance break. `start` is the scope round each unit.
    pub fn judge_instance(
        &self,
        alloc: Global,
        start: &Scope,
        scope: &Scope,
        instance: &Instance,
        notes: &mut Notes,
    ) -> Result<(), AllocError>
        requires start { start.now ≡ start_of self.now.texts }
        requires scope { IsSoundScope scope.now }
        ensures { OnOk result (notes.new ≡ (associations.instance_maps self.now.texts start.now self.now.units scope.now instance.now notes.old).0) }
    {
        match self.formals(instance.entity.number) {
            Some(formals) => { judge_by(alloc, self.names, start, scope, formals, instance, notes) }
            None => self.judge_alone(alloc, start, scope, instance, notes),
        }
    }

    /// An instance of an entity whose formals aren't kept.
    fn judge_alone(
        &self,
        alloc: Global,
        start: &Scope,
        scope: &Scope,
        instance: &Instance,
        notes: &mut Notes,
    ) -> Result<(), AllocError>
        requires start { start.now ≡ start_of self.now.texts }
        requires scope { IsSoundScope scope.now }
        ensures { OnOk result (notes.new ≡ (associations.instance_maps self.now.texts start.now self.now.units scope.now instance.now notes.old).0) }
    {
        let maps = instance_maps(alloc, self.names, start, self.units, scope, instance, notes)?;
        drop(maps);
        Ok(())
    }
}
