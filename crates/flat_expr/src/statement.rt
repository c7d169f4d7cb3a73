//! Sequential statements of a process (IEEE 1076, clause 10), with names as numbers.

use crate::expr::{Direction, FlatExpr, SignalName};
use crate::subtype::Constraint;
use ams_value::Val;
use sqlite_items::Items;

/// How serious a report is (IEEE 1076, 16.3).
#[derive(Clone, Copy, Debug, PartialEq, Eq)]
pub enum Severity {
    Note,
    Warning,
    Error,
    Failure,
}

/// An element of a waveform: its value, and the expression after `after`, where one is written.
#[derive(Drop)]
pub struct WaveElement {
    pub value: FlatExpr,
    pub delay: Option<FlatExpr>,
}

/// The delay mechanism of an assignment, with the rejection limit where one is written (IEEE 1076, 10.5.2).
#[derive(Drop)]
pub enum DelayMechanism {
    Transport,
    Inertial(Option<FlatExpr>),
}

/// An element of a break statement (IEEE 1076.1): the quantity that gets a value, and the selector whose augmentation
/// equation it replaces, both by number.
#[derive(Drop)]
pub struct BreakElement {
    pub selector: u32,
    pub quantity: u32,
    pub value: FlatExpr,
}

/// What stands between `if` or `elsif` and the next branch.
#[cycle(statements)]
#[derive(Drop)]
pub struct Branch {
    pub condition: FlatExpr,
    pub body: Items<Statement>,
}

/// An alternative of a case: the values that its choices name, and whether `others` is among them.
#[cycle(statements)]
#[derive(Drop)]
pub struct Alternative {
    pub choices: Items<Val>,
    pub others: bool,
    pub body: Items<Statement>,
}

#[cycle(statements)]
#[derive(Drop)]
pub enum Statement {
    /// The signal, the subtype of the name that is written, the mechanism and the waveform.
    SignalAssignment(u32, Constraint, DelayMechanism, Items<WaveElement>),
    /// The variable, the subtype of the name that is written, and the value.
    VariableAssignment(u32, Constraint, FlatExpr),
    /// The branches of `if` and `elsif`, and the statements after `else`.
    If(Items<Branch>, Items<Statement>),
    Case(FlatExpr, Items<Alternative>),
    /// A loop, with the condition of `while`.
    Loop(Option<FlatExpr>, Items<Statement>),
    /// The parameter's number among the variables, the range from its left bound to its right one, and the body.
    For(u32, FlatExpr, Direction, FlatExpr, Items<Statement>),
    Exit(Option<FlatExpr>),
    Next(Option<FlatExpr>),
    /// Its number among the waits of the process in text order, the sensitivity set, the condition and the timeout.
    Wait(u32, Items<SignalName>, Option<FlatExpr>, Option<FlatExpr>),
    /// The condition, the text of the report and its severity.
    Assert(FlatExpr, Items<u8>, Severity),
    Report(Items<u8>, Severity),
    /// The elements, and the condition of `when`.
    Break(Items<BreakElement>, Option<FlatExpr>),
    Null,
}
