//! The ports that associations name.
ghost use Rattle.std.specs.Prelude.{◌≡◌, ◌++◌, nat_eq, map, Some, IfOk, OnOk};
ghost use Rattle.std.specs.List.{flat_map};
ghost use Rattle.std.specs.Map.{lookup as entry_of};
ghost use Rattle.unit_meaning.specs.Associations as spec;
ghost use Rattle.formal_lists.specs.Pairs as pairs;

use ams_tree::{Entity, Name, Port};
use number_list::NumberList;
use sqlite_items::Items;
use std::alloc::{AllocError, Global};
use std::marker::Model;

/// A port, with the name of its nature where it is a terminal.
#[derive(Drop)]
pub struct PortFormal {
    pub name: u32,
    pub nature: Option<Name>,
}

/// Ports in the order of their declarations. The first one of a name is found without looking at the others.
#[derive(Drop)]
pub struct PortFormals {
    names: NumberList,
    entries: Items<PortFormal>,
}

impl Model for PortFormals {
    ghost use Rattle.std.specs.Prelude.{◌≡◌, List, ℕ, map, Option};
    ghost use Rattle.ams_tree.specs.declared.expression.Name.{Name};
    ghost use Rattle.formal_lists.specs.declared.ports.PortFormal.{PortFormal};

    ghost Value = { List (ℕ × Option Name) };

    ghost view = { λ f. map (λ (e : PortFormal). (e.name, e.nature)) f.entries };

    ghost invariant = { λ f. f.names ≡ map (λ (e : PortFormal). e.name) f.entries };
}

impl PortFormals {
    /// The ports of a list.
    pub fn new(alloc: Global, entries: Items<PortFormal>) -> Result<PortFormals, AllocError>
        ensures { IfOk result (λ formals. formals ≡ map pairs.port_pair entries) }
    {
        let mut names = NumberList::new(alloc);
        for entry in entries.as_slice() {
            names = names.with(entry.name)?;
        }
        Ok(PortFormals { names, entries })
    }

    /// The first port of a name.
    pub fn find(&self, name: u32) -> Option<Option<Name>>
        ensures { result ≡ entry_of (nat_eq name) self.now }
    {
        match self.names.find(name) {
            Some(place) => self.at(place),
            None => None,
        }
    }

    /// The port at a place in the list.
    pub fn at(&self, place: usize) -> Option<Option<Name>>
        ensures { result ≡ pairs.second_at self.now place }
    {
        match self.entries.get(place) {
            Some(entry) => Some(entry.nature),
            None => None,
        }
    }

    /// The formal of an association: the one that it names, or the one at its place in the list (IEEE 1076, 6.5.7).
    pub fn formal_at(&self, place: usize, formal: Option<Name>) -> Option<Option<Name>>
        ensures { result ≡ spec.formal_at self.now place formal }
    {
        match formal {
            Some(name) => self.find(name.number),
            None => self.at(place),
        }
    }
}

fn add_names(
    names: &[Name],
    nature: Option<Name>,
    entries: &mut Items<PortFormal>,
) -> Result<(), AllocError>
    ensures { OnOk result (entries.new ≡ entries.old ++ map (pairs.port_of nature) names.now) }
{
    for name in names {
        entries.push(PortFormal {
            name: name.number,
            nature,
        })?;
    }
    Ok(())
}

fn add_port(port: &Port, entries: &mut Items<PortFormal>) -> Result<(), AllocError>
    ensures { OnOk result (entries.new ≡ entries.old ++ pairs.ports_of port.now) }
{
    match port {
        Port::Signal(_, names, _, _, _) => add_names(names.as_slice(), None, entries),
        Port::Terminal(_, names, nature) => add_names(names.as_slice(), Some(*nature), entries),
        Port::Quantity(_, names, _, _) => add_names(names.as_slice(), None, entries),
    }
}

#[tactic(auto, using(std::proofs::lemmas::List::append_assoc))]
fn add_ports(ports: &[Port], entries: &mut Items<PortFormal>) -> Result<(), AllocError>
    ensures { OnOk result (entries.new ≡ entries.old ++ flat_map pairs.ports_of ports.now) }
{
    for port in ports {
        add_port(port, entries)?;
    }
    Ok(())
}

/// The ports of an entity, with the natures of terminals.
#[tactic(auto, using(crate::proofs::PortLists::all_ports))]
pub fn port_formals(alloc: Global, entity: &Entity) -> Result<PortFormals, AllocError>
    ensures { IfOk result (λ formals. formals ≡ spec.port_formals (Some entity.now)) }
{
    let mut entries = Items::new(alloc);
    add_ports(entity.ports.as_slice(), &mut entries)?;
    PortFormals::new(alloc, entries)
}
