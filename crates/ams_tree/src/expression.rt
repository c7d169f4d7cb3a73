use ams_token::{Decimal, Integer, Place};
use sqlite_items::{Boxed, Items};

/// An identifier as it stands in the text, by its number in the table of names.
#[derive(Clone, Copy, Debug, PartialEq, Eq)]
pub struct Name {
    pub number: u32,
    pub place: Place,
}

#[derive(Clone, Copy, Debug, PartialEq, Eq)]
pub enum NumberValue {
    Int(Integer),
    Real(Decimal),
}

/// A number as it stands in the text.
#[derive(Clone, Copy, Debug, PartialEq, Eq)]
pub struct Number {
    pub value: NumberValue,
    pub place: Place,
}

/// A character by its code, and a string's bytes or a bit string's bits by the number of their text in the table of names.
#[derive(Clone, Copy, Debug, PartialEq, Eq)]
pub enum LiteralValue {
    Char(u8),
    Str(u32),
    Bits(u32),
}

/// A character, a string or a bit string as it stands in the text.
#[derive(Clone, Copy, Debug, PartialEq, Eq)]
pub struct Literal {
    pub value: LiteralValue,
    pub place: Place,
}

/// An operator before its operand.
#[derive(Clone, Copy, Debug, PartialEq, Eq)]
pub enum UnaryOperator {
    Plus,
    Minus,
    Abs,
    Not,
}

/// An operator between its operands.
#[derive(Clone, Copy, Debug, PartialEq, Eq)]
pub enum BinaryOperator {
    And,
    Or,
    Xor,
    Xnor,
    Nand,
    Nor,
    Equal,
    NotEqual,
    Less,
    LessEqual,
    Greater,
    GreaterEqual,
    ShiftLeftLogical,
    ShiftRightLogical,
    ShiftLeftArithmetic,
    ShiftRightArithmetic,
    RotateLeft,
    RotateRight,
    Add,
    Subtract,
    Concat,
    Multiply,
    Divide,
    Mod,
    Rem,
    Power,
}

/// What stands behind the tick of an attribute.
#[cycle(expression)]
#[derive(Drop)]
pub enum Attribute {
    Event,
    Dot,
    Reference,
    /// The level that is watched.
    Above(Boxed<Expr>),
    /// The time of a rise and the time of a fall, where they are written.
    Ramp(Option<Boxed<Expr>>, Option<Boxed<Expr>>),
}

/// An expression as it is written, with its parentheses. Chains of operators group from the left. A place is that of the
/// first token.
#[cycle(expression)]
#[derive(Drop)]
pub enum Expr {
    /// A number, with the identifier behind it, where one is written.
    Number(Number, Option<Name>),
    Literal(Literal),
    Name(Name),
    /// A name with arguments: a call, a conversion or an element.
    Call(Name, Items<Expr>),
    Attribute(Name, Attribute),
    Paren(Place, Boxed<Expr>),
    Unary(UnaryOperator, Place, Boxed<Expr>),
    Binary(BinaryOperator, Boxed<Expr>, Boxed<Expr>),
}
