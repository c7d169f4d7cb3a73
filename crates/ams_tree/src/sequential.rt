use crate::declaration::Range;
use crate::expression::{Expr, Literal, Name};
use ams_token::Place;
use sqlite_items::Items;

/// How a signal takes its new values. An inertial delay may have a rejection limit.
#[derive(Drop)]
pub enum DelayMechanism {
    Transport(Place),
    Reject(Place, Expr),
    Inertial(Place),
}

/// A value, and the delay behind `after`, where one is written.
#[derive(Drop)]
pub struct WaveformElement {
    pub value: Expr,
    pub after: Option<Expr>,
}

/// A message, and its severity, where one is written.
#[derive(Drop)]
pub struct Report {
    pub text: Literal,
    pub severity: Option<Name>,
}

/// A condition, and the text and the severity of its message, where they are written.
#[derive(Drop)]
pub struct Assertion {
    pub place: Place,
    pub condition: Expr,
    pub text: Option<Literal>,
    pub severity: Option<Name>,
}

/// What a break sets: the quantity behind `for`, where one is written, the quantity, and its value.
#[derive(Drop)]
pub struct BreakElement {
    pub selector: Option<Expr>,
    pub quantity: Expr,
    pub value: Expr,
}

/// A choice of a case.
#[derive(Drop)]
pub enum Choice {
    Value(Expr),
    Others(Place),
}

/// How often the body of a loop is done.
#[derive(Drop)]
pub enum Iteration {
    /// A plain loop.
    Endless,
    While(Expr),
    For(Name, Range),
}

/// What stands between `if` or `elsif` and the next branch.
#[cycle(statement)]
#[derive(Drop)]
pub struct Branch {
    pub condition: Expr,
    pub body: Items<Seq>,
}

/// What stands between `when` and the next alternative of a case.
#[cycle(statement)]
#[derive(Drop)]
pub struct Alternative {
    pub choices: Items<Choice>,
    pub body: Items<Seq>,
}

/// A sequential statement. A place is that of the first token.
#[cycle(statement)]
#[derive(Drop)]
pub enum Seq {
    /// A signal, and its new values.
    Signal(Name, Option<DelayMechanism>, Items<WaveformElement>),
    /// A variable, and its new value.
    Variable(Name, Expr),
    /// The branches of `if` and `elsif`, and that of `else`.
    If(Place, Items<Branch>, Option<Items<Seq>>),
    Case(Place, Expr, Items<Alternative>),
    Loop(Place, Iteration, Items<Seq>),
    Exit(Place, Option<Expr>),
    Next(Place, Option<Expr>),
    /// The names behind `on`, the condition behind `until`, and the time behind `for`.
    Wait(Place, Items<Expr>, Option<Expr>, Option<Expr>),
    Assert(Assertion),
    Report(Place, Report),
    Break(Place, Items<BreakElement>, Option<Expr>),
    Null(Place),
}
