//! The syntax trees of the language, and the grammar that says which tokens spell them.
#![tactic(auto)]

mod concurrent;
mod declaration;
mod design;
mod expression;
mod sequential;

pub use concurrent::{
    Association, Concurrent, ConcurrentStatement, ConditionalWaveform, Equation, Instance, Process,
    SimultaneousAlternative, SimultaneousBranch,
};
pub use declaration::{
    Bounds, Declaration, Direction, Generic, Mode, Port, ProcessDeclaration, Range,
    SubtypeIndication,
};
pub use design::{Architecture, DesignFile, DesignUnit, Entity, Path};
pub use expression::{
    Attribute, BinaryOperator, Expr, Literal, LiteralValue, Name, Number, NumberValue,
    UnaryOperator,
};
pub use sequential::{
    Alternative, Assertion, Branch, BreakElement, Choice, DelayMechanism, Iteration, Report, Seq,
    WaveformElement,
};
