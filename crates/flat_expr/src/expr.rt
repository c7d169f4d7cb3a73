//! Expressions whose names are numbers of the flat design.
ghost use Rattle.std.specs.Prelude.{◌≡◌, IfOk};
ghost use Rattle.flat_expr.specs.Expr.{kind_of, reads_in};

use ams_value::{BinaryOperator, UnaryOperator, Val, ValueType};
use sqlite_items::Boxed;
use std::alloc::{AllocError, Global};

/// A signal in the wide sense: a declared signal, a threshold signal `q'above(e)` or the predefined signal `domain`.
#[derive(Clone, Copy, Debug, PartialEq, Eq)]
pub enum SignalName {
    Signal(u32),
    Threshold(u32),
    Domain,
}

/// An unknown of the equations: a quantity, the reference quantity of a node, or the derivative that a dot stands for,
/// each by its number among its kind.
#[derive(Clone, Copy, Debug, PartialEq, Eq)]
pub enum Unknown {
    Quantity(u32),
    Reference(u32),
    Dot(u32),
}

/// A predefined function: the conversions `real` and `integer`, and those of REAL.
#[derive(Clone, Copy, Debug, PartialEq, Eq)]
pub enum Function {
    Real,
    Integer,
    Exp,
    Sin,
    Cos,
    Sqrt,
}

#[derive(Clone, Copy, Debug, PartialEq, Eq)]
pub enum Direction {
    To,
    Downto,
}

/// The index of a bit vector's leftmost element, and the direction of its range.
#[derive(Clone, Copy, Debug, PartialEq, Eq)]
pub struct IndexRange {
    pub left: u8,
    pub direction: Direction,
}

/// An expression. Each node has its type, or only one that it can have.
#[derive(Drop)]
pub enum FlatExpr {
    Literal(Val),
    /// The value of a signal.
    Signal(SignalName, ValueType),
    /// Whether a signal had an event in the current cycle.
    Event(SignalName),
    Unknown(Unknown),
    /// A variable of the process, or the parameter of a loop.
    Variable(u32, ValueType),
    /// `now` in a process, of TIME.
    NowTime,
    /// `now` in an equation, in REAL seconds.
    NowReal,
    /// An operator, the type of its result, and its operand.
    Unary(UnaryOperator, ValueType, Boxed<FlatExpr>),
    Binary(BinaryOperator, ValueType, Boxed<FlatExpr>, Boxed<FlatExpr>),
    Call(Function, Boxed<FlatExpr>),
    /// A bit vector, the index of an element, and the range of the vector's name.
    Index(Boxed<FlatExpr>, Boxed<FlatExpr>, IndexRange),
}

impl FlatExpr {
    ghost use Rattle.flat_expr.specs.declared.expr.FlatExpr.TheVariants as e;

    pub fn unary(
        alloc: Global,
        op: UnaryOperator,
        gives: ValueType,
        operand: FlatExpr,
    ) -> Result<FlatExpr, AllocError>
        ensures { IfOk result (λ made. made ≡ e.Unary op gives operand) }
    {
        Ok(FlatExpr::Unary(op, gives, Boxed::new(alloc, operand)?))
    }

    pub fn binary(
        alloc: Global,
        op: BinaryOperator,
        gives: ValueType,
        left: FlatExpr,
        right: FlatExpr,
    ) -> Result<FlatExpr, AllocError>
        ensures { IfOk result (λ made. made ≡ e.Binary op gives left right) }
    {
        let left = Boxed::new(alloc, left)?;
        let right = Boxed::new(alloc, right)?;
        Ok(FlatExpr::Binary(op, gives, left, right))
    }

    pub fn call(
        alloc: Global,
        function: Function,
        argument: FlatExpr,
    ) -> Result<FlatExpr, AllocError>
        ensures { IfOk result (λ made. made ≡ e.Call function argument) }
    {
        Ok(FlatExpr::Call(function, Boxed::new(alloc, argument)?))
    }

    pub fn index(
        alloc: Global,
        vector: FlatExpr,
        at: FlatExpr,
        range: IndexRange,
    ) -> Result<FlatExpr, AllocError>
        ensures { IfOk result (λ made. made ≡ e.Index vector at range) }
    {
        let vector = Boxed::new(alloc, vector)?;
        let at = Boxed::new(alloc, at)?;
        Ok(FlatExpr::Index(vector, at, range))
    }

    /// The type of its value.
    pub fn kind(&self) -> ValueType
        ensures { result ≡ kind_of self.now }
    {
        match self {
            FlatExpr::Literal(value) => ValueType::of(*value),
            FlatExpr::Signal(_, kind) | FlatExpr::Variable(_, kind) => *kind,
            FlatExpr::Unary(_, kind, _) | FlatExpr::Binary(_, kind, _, _) => *kind,
            FlatExpr::Event(_) => ValueType::Boolean,
            FlatExpr::Unknown(_) | FlatExpr::NowReal => ValueType::Real,
            FlatExpr::NowTime => ValueType::Time,
            FlatExpr::Call(Function::Integer, _) => ValueType::Integer,
            FlatExpr::Call(_, _) => ValueType::Real,
            FlatExpr::Index(_, _, _) => ValueType::Bit,
        }
    }

    /// Whether the value of this signal stands in it; an event of the signal doesn't count.
    pub fn reads(&self, signal: SignalName) -> bool
        ensures { result ≡ reads_in signal self.now }
    {
        match self {
            FlatExpr::Signal(other, _) => *other == signal,
            FlatExpr::Unary(_, _, operand) | FlatExpr::Call(_, operand) => operand
                .get()
                .reads(signal),
            FlatExpr::Binary(_, _, left, right) | FlatExpr::Index(left, right, _) => {
                left.get().reads(signal) || right.get().reads(signal)
            }
            _ => false,
        }
    }
}
