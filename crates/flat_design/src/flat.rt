//! The flat design, and what is read of it.
ghost use Rattle.std.specs.Prelude.{◌≡◌, ◌<◌, ◌++◌, IfOk};
ghost use Rattle.std.specs.List.{slice_get};
ghost use Rattle.flat_design.specs.Order.{unknown_count, number_of, unknown_at, quantity_path, path_of_node, dot_path, unknown_name, equation_names, NumbersFindUnknowns};
ghost use Rattle.flat_design.specs.Reads.{frame_of};
ghost use Rattle.flat_design.specs.Flat.{HasNumbers};

use crate::names::{self, EquationName};
use crate::objects::{
    Enumeration, Equation, Instance, Name, Node, Objects, Process, Quantity, Ramp, Signal,
    Threshold,
};
use crate::reads;
use flat_expr::{SignalName, Unknown};
use sqlite_items::Items;
use std::alloc::{AllocError, Global};
use std::marker::Model;

/// A flat design: the lists of its objects, and its frame. Contracts see the lists.
#[derive(Drop)]
pub struct Flat {
    objects: Objects,
    frame: Items<SignalName>,
}

impl Model for Flat {
    ghost use Rattle.flat_design.specs.declared.objects.Objects.{Objects};
    ghost use Rattle.flat_design.specs.contracts.objects.Objects as lists;
    ghost use Rattle.flat_design.specs.Flat.{IsFlat};

    ghost Value = { Objects };

    ghost coded = { lists.the_row.coded };

    ghost view = { λ f. f.objects };

    ghost invariant = { λ f. IsFlat f.objects f.frame };
}

impl Flat {
    /// The design of these objects.
    pub fn new(alloc: Global, objects: Objects) -> Result<Flat, AllocError>
        requires { HasNumbers objects }
        ensures { IfOk result (λ flat. flat ≡ objects) }
    {
        let frame = reads::frame_of(alloc, &objects)?;
        Ok(Flat { objects, frame })
    }

    pub fn signals(&self) -> &[Signal]
        ensures { result.now ≡ self.now.signals }
    {
        self.objects.signals.as_slice()
    }

    pub fn quantities(&self) -> &[Quantity]
        ensures { result.now ≡ self.now.quantities }
    {
        self.objects.quantities.as_slice()
    }

    pub fn nodes(&self) -> &[Node]
        ensures { result.now ≡ self.now.nodes }
    {
        self.objects.nodes.as_slice()
    }

    pub fn equations(&self) -> &[Equation]
        ensures { result.now ≡ self.now.equations }
    {
        self.objects.equations.as_slice()
    }

    /// The quantity of each dot.
    pub fn dots(&self) -> &[u32]
        ensures { result.now ≡ self.now.dots }
    {
        self.objects.dots.as_slice()
    }

    pub fn thresholds(&self) -> &[Threshold]
        ensures { result.now ≡ self.now.thresholds }
    {
        self.objects.thresholds.as_slice()
    }

    pub fn processes(&self) -> &[Process]
        ensures { result.now ≡ self.now.processes }
    {
        self.objects.processes.as_slice()
    }

    pub fn instances(&self) -> &[Instance]
        ensures { result.now ≡ self.now.instances }
    {
        self.objects.instances.as_slice()
    }

    pub fn enumerations(&self) -> &[Enumeration]
        ensures { result.now ≡ self.now.enumerations }
    {
        self.objects.enumerations.as_slice()
    }

    pub fn ramps(&self) -> &[Ramp]
        ensures { result.now ≡ self.now.ramps }
    {
        self.objects.ramps.as_slice()
    }

    /// The signals whose values make up the frame: those that equations or conditions read, in signal order, and then
    /// the thresholds that they read.
    pub fn frame(&self) -> &[SignalName]
        ensures { result.now ≡ frame_of self.now }
    {
        self.frame.as_slice()
    }

    /// The number of unknowns, which is the length of a point.
    pub fn unknown_count(&self) -> usize
        ensures { result ≡ unknown_count self.now }
    {
        self.objects.quantities.len() + self.objects.nodes.len() + self.objects.dots.len()
    }

    /// The number of an unknown.
    pub fn number_of(&self, unknown: Unknown) -> usize
        ensures { result ≡ number_of self.now unknown }
    {
        match unknown {
            Unknown::Quantity(i) => i as usize,
            Unknown::Reference(i) => self.objects.quantities.len() + i as usize,
            Unknown::Dot(i) => self.objects.quantities.len()
                + self.objects.nodes.len()
                + i as usize,
        }
    }

    /// The unknown of a number.
    pub fn unknown_at(&self, number: usize) -> Unknown
        requires { number < unknown_count self.now }
        ensures { result ≡ unknown_at self.now number }
    {
        let quantities = self.objects.quantities.len();
        let nodes = self.objects.nodes.len();
        if number < quantities {
            Unknown::Quantity(number as u32)
        } else if number < quantities + nodes {
            Unknown::Reference((number - quantities) as u32)
        } else {
            Unknown::Dot((number - quantities - nodes) as u32)
        }
    }

    /// The names of the equations of a set, in order.
    pub fn equation_names(&self, alloc: Global) -> Result<Items<EquationName>, AllocError>
        ensures { IfOk result (λ names. names ≡ equation_names self.now) }
    {
        let sums = names::sum_names(alloc, self.objects.nodes.len() as u32)?;
        let across = names::across_names(alloc, 0, self.objects.quantities.as_slice())?;
        let augmentation = names::augmentation_names(alloc, self.objects.dots.len() as u32)?;
        let mut names = names::explicit_names(alloc, 0, self.objects.equations.as_slice())?;
        names.append(Items::from_vec(sums))?;
        names.append(across)?;
        names.append(Items::from_vec(augmentation))?;
        Ok(names)
    }

    fn quantity_path(&self, number: u32) -> &[u8]
        ensures { result.now ≡ quantity_path self.now number }
    {
        match self.objects.quantities.get(number as usize) {
            Some(quantity) => quantity.path.as_slice(),
            None => &[],
        }
    }

    fn node_path(&self, number: u32) -> &[u8]
        ensures { result.now ≡ path_of_node (slice_get self.now.nodes number) }
    {
        match self.objects.nodes.get(number as usize) {
            Some(node) => node.path.as_slice(),
            None => &[],
        }
    }

    fn dot_path(&self, number: u32) -> &[u8]
        ensures { result.now ≡ dot_path self.now (slice_get self.now.dots number) }
    {
        match self.objects.dots.get(number as usize) {
            Some(quantity) => self.quantity_path(*quantity),
            None => &[],
        }
    }

    /// The name of an unknown as a trace prints it.
    pub fn unknown_name(&self, alloc: Global, unknown: Unknown) -> Result<Name, AllocError>
        ensures { IfOk result (λ name. name ≡ unknown_name self.now unknown) }
    {
        match unknown {
            Unknown::Quantity(i) => named(alloc, self.quantity_path(i), b""),
            Unknown::Reference(i) => named(alloc, self.node_path(i), b"'reference"),
            Unknown::Dot(k) => named(alloc, self.dot_path(k), b"'dot"),
        }
    }
}

/// A copy of a path with an attribute behind it.
fn named(alloc: Global, path: &[u8], attribute: &[u8]) -> Result<Name, AllocError>
    ensures { IfOk result (λ name. name ≡ path.now ++ attribute.now) }
{
    let mut name = path.to_vec(alloc)?;
    name.extend_from_slice(attribute)?;
    Ok(Items::from_vec(name))
}

/// The law of the number order of unknowns. It is proved, and does nothing when it runs.
#[tactic(auto, using(crate::proofs::OrderLaws::laws))]
pub fn numbers_find_unknowns()
    ensures { NumbersFindUnknowns }
{}
