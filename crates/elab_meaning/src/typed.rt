//! Expressions that keep the rules.
use ams_token::Place;
use ams_value::Val;
use flat_expr::FlatExpr;
use name_scope::{Kind, Subtype};

/// What is known of the value of an expression before the run.
#[derive(Clone, Copy)]
pub enum StaticValue {
    Known(Val),
    /// Its evaluation has a fault.
    Faulty,
    /// It follows from generics whose values are given at an instance.
    Later,
    /// It reads something that changes.
    Changing,
}

/// An expression that keeps the rules, with the place of its first token.
#[derive(Drop)]
pub struct Typed {
    pub place: Place,
    pub kind: Kind,
    pub expr: FlatExpr,
    pub value: StaticValue,
}

/// What an expression stands in.
#[derive(Clone, Copy, Debug, PartialEq, Eq)]
pub enum Surrounding {
    Declaration,
    Process,
    /// A side of an equation, or a choice of a simultaneous case.
    Equation,
    /// A condition of a simultaneous if, or the expression of a simultaneous case.
    Condition,
}

/// Where an expression stands, and whether its value is asked before the run.
#[derive(Clone, Copy, Debug, PartialEq, Eq)]
pub struct Context {
    pub surrounding: Surrounding,
    pub is_static: bool,
}

/// An expression whose value is asked before the run, with the value where it is known.
#[derive(Clone, Copy)]
pub struct Asked {
    pub kind: Kind,
    pub value: Option<Val>,
}

/// A subtype with the value that a declaration gives, where it is known.
#[derive(Clone, Copy)]
pub struct Valued {
    pub subtype: Subtype,
    pub value: Option<Val>,
}

/// A unit of time in ticks: so many times a power of ten.
#[derive(Clone, Copy, Debug, PartialEq, Eq)]
pub struct Scale {
    pub factor: u32,
    pub power: i32,
}
