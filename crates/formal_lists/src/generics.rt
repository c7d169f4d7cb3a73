//! The generics that associations name.
ghost use Rattle.std.specs.Prelude.{◌≡◌, nat_eq, map, IfOk};
ghost use Rattle.std.specs.Map.{lookup as entry_of};
ghost use Rattle.unit_meaning.specs.Associations as spec;
ghost use Rattle.formal_lists.specs.Pairs as pairs;

use ams_tree::Name;
use name_scope::Subtype;
use number_list::NumberList;
use sqlite_items::Items;
use std::alloc::{AllocError, Global};
use std::marker::Model;

/// A generic, with its subtype where that keeps the rules.
#[derive(Drop)]
pub struct GenericFormal {
    pub name: u32,
    pub subtype: Option<Subtype>,
}

/// Generics in the order of their declarations. The first one of a name is found without looking at the others.
#[derive(Drop)]
pub struct GenericFormals {
    names: NumberList,
    entries: Items<GenericFormal>,
}

impl Model for GenericFormals {
    ghost use Rattle.std.specs.Prelude.{◌≡◌, List, ℕ, map, Option};
    ghost use Rattle.name_scope.specs.declared.thing.Subtype.{Subtype};
    ghost use Rattle.formal_lists.specs.declared.generics.GenericFormal.{GenericFormal};

    ghost Value = { List (ℕ × Option Subtype) };

    ghost view = { λ f. map (λ (e : GenericFormal). (e.name, e.subtype)) f.entries };

    ghost invariant = { λ f. f.names ≡ map (λ (e : GenericFormal). e.name) f.entries };
}

impl GenericFormals {
    /// The generics of a list.
    pub fn new(alloc: Global, entries: Items<GenericFormal>) -> Result<GenericFormals, AllocError>
        ensures { IfOk result (λ formals. formals ≡ map pairs.generic_pair entries) }
    {
        let mut names = NumberList::new(alloc);
        for entry in entries.as_slice() {
            names = names.with(entry.name)?;
        }
        Ok(GenericFormals { names, entries })
    }

    /// The first generic of a name.
    pub fn find(&self, name: u32) -> Option<Option<Subtype>>
        ensures { result ≡ entry_of (nat_eq name) self.now }
    {
        match self.names.find(name) {
            Some(place) => self.at(place),
            None => None,
        }
    }

    /// The generic at a place in the list.
    pub fn at(&self, place: usize) -> Option<Option<Subtype>>
        ensures { result ≡ pairs.second_at self.now place }
    {
        match self.entries.get(place) {
            Some(entry) => Some(entry.subtype),
            None => None,
        }
    }

    /// The formal of an association: the one that it names, or the one at its place in the list (IEEE 1076, 6.5.7).
    pub fn formal_at(&self, place: usize, formal: Option<Name>) -> Option<Option<Subtype>>
        ensures { result ≡ spec.formal_at self.now place formal }
    {
        match formal {
            Some(name) => self.find(name.number),
            None => self.at(place),
        }
    }
}
