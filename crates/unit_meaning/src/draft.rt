//! A process while it is read.
use ams_value::Val;
use elab_meaning::Notes;
use flat_design::{Equation, PathStep, Process, Variable, WaitPlace};
use sqlite_items::Items;

/// What is read of a process so far: what is noted, its variables with the parameters of its loops, the signals that it
/// assigns, and its waits.
#[derive(Drop)]
pub struct Draft {
    pub notes: Notes,
    pub variables: Items<Variable>,
    pub drivers: Items<u32>,
    pub waits: Items<WaitPlace>,
}

/// Where a list of statements stands in its process: the way to it, and the parameters of the loops round it.
#[derive(Drop)]
pub struct Spot {
    pub path: Items<PathStep>,
    pub parameters: Items<u32>,
    pub is_in_loop: bool,
}

/// The choices of a case so far: their values, whether `others` is among them, and whether a value isn't known here.
#[derive(Drop)]
pub struct Seen {
    pub values: Items<Val>,
    pub others: bool,
    pub unsure: bool,
}

/// What a concurrent or simultaneous statement that is no instance makes, where it keeps the rules.
#[derive(Drop)]
pub enum Made {
    Nothing,
    Process(Process),
    Equation(Equation),
}
