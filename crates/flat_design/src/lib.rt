//! The flat design: the lists of objects that are left of a design after its elaboration, each object known by its
//! number in its list, and the number order of unknowns and equations.
#![tactic(auto)]

mod flat;
mod limits;
mod names;
mod objects;
mod reads;

pub use flat::{Flat, numbers_find_unknowns};
pub use limits::{
    FRAME_LIMIT, INSTANCE_LIMIT, PROCESS_LIMIT, SIGNAL_LIMIT, THRESHOLD_LIMIT, UNKNOWN_LIMIT,
};
pub use names::EquationName;
pub use objects::{
    CaseArm, Choice, Enumeration, Equation, IfArm, Instance, Name, Node, Objects, Pair, PathStep,
    Process, Quantity, QuantityKind, Ramp, Selection, Signal, Terminal, Threshold, Variable,
    WaitPlace,
};
