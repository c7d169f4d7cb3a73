//! The objects, and the lists in which elaboration collects them.
ghost use Rattle.std.specs.Prelude.{◌≡◌, ◌<◌, ◌≤◌, ◌++◌, ◌∷◌, [], length, position, nat_eq, IfOk, OnOk, OnErr};
ghost use Rattle.flat_design.specs.Lists.{same_threshold, number_of_dot, with_dot, number_of_threshold, with_threshold};

use ams_value::{Val, ValueType};
use fix_core::Fix;
use flat_expr::{Constraint, FlatExpr, Statement};
use sqlite_items::Items;
use std::alloc::{AllocError, Global};

/// A path or a literal, in bytes of ASCII.
pub type Name = Items<u8>;

#[derive(Drop)]
pub struct Signal {
    pub path: Name,
    pub kind: ValueType,
    pub constraint: Constraint,
    pub initial: Val,
}

/// An end of a branch: a node by its number, or the reference of the nature.
#[derive(Clone, Copy, Debug, PartialEq, Eq)]
pub enum Terminal {
    Node(u32),
    Reference,
}

/// What a quantity stands for (IEEE 1076.1): a branch quantity has the plus and the minus terminal of its branch.
#[derive(Clone, Copy, Debug, PartialEq, Eq)]
pub enum QuantityKind {
    Free,
    Across(Terminal, Terminal),
    Through(Terminal, Terminal),
}

#[derive(Drop)]
pub struct Quantity {
    pub path: Name,
    pub kind: QuantityKind,
    pub initial: Fix,
}

/// A terminal that is no reference and no port with an actual.
#[derive(Drop)]
pub struct Node {
    pub path: Name,
}

/// A simple simultaneous statement: its two sides.
#[derive(Drop)]
pub struct Pair {
    pub left: FlatExpr,
    pub right: FlatExpr,
}

/// The equations after `use` of an `if` or `elsif`, with its condition.
#[derive(Drop)]
pub struct IfArm {
    pub condition: FlatExpr,
    pub pairs: Items<Pair>,
}

/// An alternative of a simultaneous case: the values that its choices name, whether `others` is among them, and its
/// equations.
#[derive(Drop)]
pub struct CaseArm {
    pub choices: Items<Val>,
    pub others: bool,
    pub pairs: Items<Pair>,
}

/// How a choice selects its branch.
#[derive(Drop)]
pub enum Selection {
    /// The arms of a simultaneous if, and the equations after `else`, which are its last branch.
    If(Items<IfArm>, Items<Pair>),
    /// The expression of a simultaneous case, and its alternatives.
    Case(FlatExpr, Items<CaseArm>),
}

/// A simultaneous if or case. Each of its branches has the same number of equations.
#[derive(Drop)]
pub struct Choice {
    pub selection: Selection,
    /// The number of equations of one branch.
    pub size: u32,
}

/// An explicit equation.
#[derive(Drop)]
pub enum Equation {
    Pair(Pair),
    Choice(Choice),
}

/// A threshold signal: true where the quantity is above the level.
#[derive(Clone, Copy, PartialEq, Eq)]
pub struct Threshold {
    pub quantity: u32,
    pub level: Fix,
}

/// A variable of a process, or the parameter of one of its loops.
#[derive(Drop)]
pub struct Variable {
    pub name: Name,
    pub kind: ValueType,
    pub constraint: Constraint,
    pub initial: Val,
    pub is_parameter: bool,
}

/// A step on the way from a list of statements to one of its statements, and on to a branch of an `if` or an
/// alternative of a case; the branch after `else` comes last. The body of a loop is branch 0.
#[derive(Clone, Copy, Debug, PartialEq, Eq)]
pub struct PathStep {
    pub statement: u32,
    pub branch: u32,
}

/// A wait statement: the way to it from the statements of the process, and the parameters of the for loops round it,
/// the outermost first.
#[derive(Drop)]
pub struct WaitPlace {
    pub path: Items<PathStep>,
    pub parameters: Items<u32>,
}

#[derive(Drop)]
pub struct Process {
    pub variables: Items<Variable>,
    pub statements: Items<Statement>,
    /// The signals that it assigns, each once.
    pub drivers: Items<u32>,
    /// Its wait statements in text order.
    pub waits: Items<WaitPlace>,
}

/// A design entity's instance, with the two numbers of its solvability count.
#[derive(Drop)]
pub struct Instance {
    pub path: Name,
    pub equations: u32,
    pub unknowns: u32,
}

/// An enumeration type: its literals in order. Number 0 is DOMAIN_TYPE.
#[derive(Drop)]
pub struct Enumeration {
    pub literals: Items<Name>,
}

/// A ramp on a signal: rise and fall time in seconds, the number of the first of its four signals (from, to, start,
/// stop), and of its quantity.
#[derive(Clone, Copy, PartialEq, Eq)]
pub struct Ramp {
    pub signal: u32,
    pub rise: Fix,
    pub fall: Fix,
    pub first: u32,
    pub quantity: u32,
}

/// All objects of a flat design, each list in the order of their numbers.
#[derive(Drop)]
pub struct Objects {
    pub signals: Items<Signal>,
    pub quantities: Items<Quantity>,
    pub nodes: Items<Node>,
    pub equations: Items<Equation>,
    /// The quantity of each dot.
    pub dots: Items<u32>,
    pub thresholds: Items<Threshold>,
    pub processes: Items<Process>,
    pub instances: Items<Instance>,
    pub enumerations: Items<Enumeration>,
    pub ramps: Items<Ramp>,
}

fn position_of_dot(dots: &[u32], quantity: u32) -> Option<usize>
    ensures { result ≡ position (λ other. nat_eq other quantity) dots.now }
{
    dots.iter().position(|other| *other == quantity)
}

/// The number of the dot of a quantity, or the number of dots where there is none.
fn number_of_dot(dots: &[u32], quantity: u32) -> usize
    ensures value { result ≡ number_of_dot quantity dots.now }
    ensures bound { result ≤ length dots.now }
{
    match position_of_dot(dots, quantity) {
        Some(number) => number,
        None => dots.len(),
    }
}

fn position_of_threshold(thresholds: &[Threshold], threshold: &Threshold) -> Option<usize>
    ensures { result ≡ position (λ other. same_threshold other threshold.now) thresholds.now }
{
    thresholds.iter().position(|other| other == threshold)
}

/// The number of such a threshold, or the number of thresholds where there is none.
fn number_of_threshold(thresholds: &[Threshold], threshold: &Threshold) -> usize
    ensures value { result ≡ number_of_threshold threshold.now thresholds.now }
    ensures bound { result ≤ length thresholds.now }
{
    match position_of_threshold(thresholds, threshold) {
        Some(number) => number,
        None => thresholds.len(),
    }
}

impl Objects {
    ghost use Rattle.flat_design.specs.Lists.{no_objects};

    pub fn new(alloc: Global) -> Objects
        ensures { result ≡ no_objects }
    {
        Objects {
            signals: Items::new(alloc),
            quantities: Items::new(alloc),
            nodes: Items::new(alloc),
            equations: Items::new(alloc),
            dots: Items::new(alloc),
            thresholds: Items::new(alloc),
            processes: Items::new(alloc),
            instances: Items::new(alloc),
            enumerations: Items::new(alloc),
            ramps: Items::new(alloc),
        }
    }

    /// Adds a signal, and answers its number.
    pub fn add_signal(&mut self, signal: Signal) -> Result<u32, AllocError>
        requires { length self.old.signals < 4294967296 }
        ensures number { IfOk result (λ number. number ≡ length self.old.signals) }
        ensures ok { OnOk result (self.new ≡ record self.old { signals = self.old.signals ++ signal ∷ [] }) }
        ensures err { OnErr result (self.new ≡ self.old) }
    {
        let number = self.signals.len() as u32;
        self.signals.push(signal)?;
        Ok(number)
    }

    /// Adds a quantity, and answers its number.
    pub fn add_quantity(&mut self, quantity: Quantity) -> Result<u32, AllocError>
        requires { length self.old.quantities < 4294967296 }
        ensures number { IfOk result (λ number. number ≡ length self.old.quantities) }
        ensures ok { OnOk result (self.new ≡ record self.old { quantities = self.old.quantities ++ quantity ∷ [] }) }
        ensures err { OnErr result (self.new ≡ self.old) }
    {
        let number = self.quantities.len() as u32;
        self.quantities.push(quantity)?;
        Ok(number)
    }

    /// Adds a node, and answers its number.
    pub fn add_node(&mut self, node: Node) -> Result<u32, AllocError>
        requires { length self.old.nodes < 4294967296 }
        ensures number { IfOk result (λ number. number ≡ length self.old.nodes) }
        ensures ok { OnOk result (self.new ≡ record self.old { nodes = self.old.nodes ++ node ∷ [] }) }
        ensures err { OnErr result (self.new ≡ self.old) }
    {
        let number = self.nodes.len() as u32;
        self.nodes.push(node)?;
        Ok(number)
    }

    /// Adds an explicit equation, and answers its number.
    pub fn add_equation(&mut self, equation: Equation) -> Result<u32, AllocError>
        requires { length self.old.equations < 4294967296 }
        ensures number { IfOk result (λ number. number ≡ length self.old.equations) }
        ensures ok { OnOk result (self.new ≡ record self.old { equations = self.old.equations ++ equation ∷ [] }) }
        ensures err { OnErr result (self.new ≡ self.old) }
    {
        let number = self.equations.len() as u32;
        self.equations.push(equation)?;
        Ok(number)
    }

    /// Adds a process, and answers its number.
    pub fn add_process(&mut self, process: Process) -> Result<u32, AllocError>
        requires { length self.old.processes < 4294967296 }
        ensures number { IfOk result (λ number. number ≡ length self.old.processes) }
        ensures ok { OnOk result (self.new ≡ record self.old { processes = self.old.processes ++ process ∷ [] }) }
        ensures err { OnErr result (self.new ≡ self.old) }
    {
        let number = self.processes.len() as u32;
        self.processes.push(process)?;
        Ok(number)
    }

    /// Adds an instance, and answers its number.
    pub fn add_instance(&mut self, instance: Instance) -> Result<u32, AllocError>
        requires { length self.old.instances < 4294967296 }
        ensures number { IfOk result (λ number. number ≡ length self.old.instances) }
        ensures ok { OnOk result (self.new ≡ record self.old { instances = self.old.instances ++ instance ∷ [] }) }
        ensures err { OnErr result (self.new ≡ self.old) }
    {
        let number = self.instances.len() as u32;
        self.instances.push(instance)?;
        Ok(number)
    }

    /// Adds an enumeration type, and answers its number.
    pub fn add_enumeration(&mut self, enumeration: Enumeration) -> Result<u32, AllocError>
        requires { length self.old.enumerations < 4294967296 }
        ensures number { IfOk result (λ number. number ≡ length self.old.enumerations) }
        ensures ok { OnOk result (self.new ≡ record self.old { enumerations = self.old.enumerations ++ enumeration ∷ [] }) }
        ensures err { OnErr result (self.new ≡ self.old) }
    {
        let number = self.enumerations.len() as u32;
        self.enumerations.push(enumeration)?;
        Ok(number)
    }

    /// Adds a ramp, and answers its number.
    pub fn add_ramp(&mut self, ramp: Ramp) -> Result<u32, AllocError>
        requires { length self.old.ramps < 4294967296 }
        ensures number { IfOk result (λ number. number ≡ length self.old.ramps) }
        ensures ok { OnOk result (self.new ≡ record self.old { ramps = self.old.ramps ++ ramp ∷ [] }) }
        ensures err { OnErr result (self.new ≡ self.old) }
    {
        let number = self.ramps.len() as u32;
        self.ramps.push(ramp)?;
        Ok(number)
    }

    /// The number of the dot of a quantity, which is added where there is none like it yet.
    pub fn add_dot(&mut self, quantity: u32) -> Result<u32, AllocError>
        requires { length self.old.dots < 4294967296 }
        ensures number { IfOk result (λ number. number ≡ number_of_dot quantity self.old.dots) }
        ensures ok { OnOk result (self.new ≡ record self.old { dots = with_dot quantity self.old.dots }) }
        ensures err { OnErr result (self.new ≡ self.old) }
    {
        let number = number_of_dot(self.dots.as_slice(), quantity);
        if number == self.dots.len() {
            self.dots.push(quantity)?;
        }
        Ok(number as u32)
    }

    /// The number of a threshold, which is added where there is none like it yet.
    pub fn add_threshold(&mut self, threshold: Threshold) -> Result<u32, AllocError>
        requires { length self.old.thresholds < 4294967296 }
        ensures number { IfOk result (λ number. number ≡ number_of_threshold threshold self.old.thresholds) }
        ensures ok { OnOk result (self.new ≡ record self.old { thresholds = with_threshold threshold self.old.thresholds }) }
        ensures err { OnErr result (self.new ≡ self.old) }
    {
        let number = number_of_threshold(self.thresholds.as_slice(), &threshold);
        if number == self.thresholds.len() {
            self.thresholds.push(threshold)?;
        }
        Ok(number as u32)
    }
}
