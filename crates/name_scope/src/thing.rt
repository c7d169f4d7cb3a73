//! What names stand for.
use ams_value::{Val, ValueType};
use flat_design::Terminal;
use flat_expr::{Constraint, Function, IndexRange};

/// The type of an expression, as far as it is known. Where a generic gives the length of a vector, it is a vector and no
/// more.
#[derive(Clone, Copy, Debug, PartialEq, Eq)]
pub enum Kind {
    Of(ValueType),
    Vector,
}

/// The constraint of a subtype (IEEE 1076, 6.3).
#[derive(Clone, Copy)]
pub enum SubtypeConstraint {
    /// A range of values.
    Range(Constraint),
    /// The range of the index of a vector.
    Index(IndexRange),
    /// It follows from generics whose values are given at an instance.
    Later,
}

/// A type, or a part of one.
#[derive(Clone, Copy)]
pub struct Subtype {
    pub kind: Kind,
    pub constraint: SubtypeConstraint,
}

/// Whether the processes of an architecture may assign a signal, as they may not where it is a port of mode in.
#[derive(Clone, Copy, Debug, PartialEq, Eq)]
pub enum Access {
    ReadOnly,
    Assignable,
}

/// What a quantity was declared as.
#[derive(Clone, Copy, Debug, PartialEq, Eq)]
pub enum QuantityClass {
    Free,
    Across,
    Through,
    PortIn,
    PortOut,
}

/// What a declared name stands for. Objects go by their numbers in the flat design.
#[derive(Clone, Copy)]
pub enum Thing {
    /// A type or a subtype, and the conversion of its name, where there is one.
    Type(Subtype, Option<Function>),
    /// BIT_VECTOR, which is a type only with the range of an index.
    BitVector,
    /// A constant, with its value where it is known here. That of a generic is given at an instance.
    Constant(Subtype, Option<Val>),
    /// A literal of an enumeration type.
    Literal(Val),
    Signal(u32, Subtype, Access),
    Domain,
    Quantity(u32, QuantityClass),
    /// A terminal, and the number of its nature.
    Terminal(Terminal, u32),
    /// A variable of the process.
    Variable(u32, Subtype),
    /// The parameter of a loop, by its number among the variables of the process.
    Parameter(u32),
    Nature(u32),
    Function(Function),
    Now,
    Label,
    /// Its own declaration breaks a rule. Nothing more is said of it.
    Faulty,
}
