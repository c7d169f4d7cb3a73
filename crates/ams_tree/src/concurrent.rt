use crate::declaration::ProcessDeclaration;
use crate::expression::{Expr, Name};
use crate::sequential::{Assertion, BreakElement, Choice, DelayMechanism, Seq, WaveformElement};
use ams_token::Place;
use sqlite_items::Items;

/// A process. The sensitivity list is none where no parentheses are written.
#[derive(Drop)]
pub struct Process {
    pub place: Place,
    pub sensitivity: Option<Items<Expr>>,
    pub word_is: bool,
    pub declarations: Items<ProcessDeclaration>,
    pub body: Items<Seq>,
    pub end: Option<Name>,
}

/// New values, and the condition behind `when`.
#[derive(Drop)]
pub struct ConditionalWaveform {
    pub elements: Items<WaveformElement>,
    pub condition: Expr,
}

/// A simple simultaneous statement.
#[derive(Drop)]
pub struct Equation {
    pub left: Expr,
    pub right: Expr,
}

/// An association: the name before the arrow, where one is written, and the actual, which is none for `open`. The place is
/// that of `open`.
#[derive(Drop)]
pub enum Association {
    Actual(Option<Name>, Expr),
    Open(Option<Name>, Place),
}

/// A direct instantiation: a library, where one is written, an entity, and an architecture, where one is written.
#[derive(Drop)]
pub struct Instance {
    pub place: Place,
    pub library: Option<Name>,
    pub entity: Name,
    pub architecture: Option<Name>,
    pub generics: Option<Items<Association>>,
    pub ports: Option<Items<Association>>,
}

/// What stands between `if` or `elsif` and the next branch of a simultaneous if.
#[derive(Drop)]
pub struct SimultaneousBranch {
    pub condition: Expr,
    pub equations: Items<Equation>,
}

/// What stands between `when` and the next alternative of a simultaneous case.
#[derive(Drop)]
pub struct SimultaneousAlternative {
    pub choices: Items<Choice>,
    pub equations: Items<Equation>,
}

/// A concurrent or simultaneous statement, without its label.
#[derive(Drop)]
pub enum ConcurrentStatement {
    Process(Process),
    /// A signal, its delay, the waveforms before an `else`, the last waveform, and its condition.
    Assign(
        Name,
        Option<DelayMechanism>,
        Items<ConditionalWaveform>,
        Items<WaveformElement>,
        Option<Expr>,
    ),
    Assert(Assertion),
    /// The elements, the names behind `on`, and the condition behind `when`.
    Break(Place, Items<BreakElement>, Items<Expr>, Option<Expr>),
    Equation(Equation),
    Instance(Instance),
    /// The branches of `if` and `elsif`, and that of `else`.
    If(Place, Items<SimultaneousBranch>, Option<Items<Equation>>),
    Case(Place, Expr, Items<SimultaneousAlternative>),
}

#[derive(Drop)]
pub struct Concurrent {
    pub label: Option<Name>,
    pub statement: ConcurrentStatement,
}
