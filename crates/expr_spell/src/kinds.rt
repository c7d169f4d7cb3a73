ghost use Rattle.std.specs.Prelude.{◌≡◌};
ghost use Rattle.expr_spell.specs.Spelling as spec;

use ams_token::{Mark, TokenKind, Word};
use ams_tree::{BinaryOperator, LiteralValue, NumberValue, UnaryOperator};

pub fn number_kind(value: NumberValue) -> TokenKind
    ensures { result ≡ spec.number_kind value }
{
    match value {
        NumberValue::Int(value) => TokenKind::Int(value),
        NumberValue::Real(value) => TokenKind::Real(value),
    }
}

/// The kind of a literal.
pub fn literal_kind(value: LiteralValue) -> TokenKind
    ensures { result ≡ spec.literal_kind value }
{
    match value {
        LiteralValue::Char(code) => TokenKind::Char(code),
        LiteralValue::Str(number) => TokenKind::Str(number),
        LiteralValue::Bits(number) => TokenKind::Bits(number),
    }
}

pub fn unary_kind(op: UnaryOperator) -> TokenKind
    ensures { result ≡ spec.unary_kind op }
{
    match op {
        UnaryOperator::Plus => TokenKind::Mark(Mark::Plus),
        UnaryOperator::Minus => TokenKind::Mark(Mark::Minus),
        UnaryOperator::Abs => TokenKind::Word(Word::Abs),
        UnaryOperator::Not => TokenKind::Word(Word::Not),
    }
}

pub fn binary_kind(op: BinaryOperator) -> TokenKind
    ensures { result ≡ spec.binary_kind op }
{
    match op {
        BinaryOperator::And => TokenKind::Word(Word::And),
        BinaryOperator::Or => TokenKind::Word(Word::Or),
        BinaryOperator::Xor => TokenKind::Word(Word::Xor),
        BinaryOperator::Xnor => TokenKind::Word(Word::Xnor),
        BinaryOperator::Nand => TokenKind::Word(Word::Nand),
        BinaryOperator::Nor => TokenKind::Word(Word::Nor),
        BinaryOperator::Equal => TokenKind::Mark(Mark::Equal),
        BinaryOperator::NotEqual => TokenKind::Mark(Mark::NotEqual),
        BinaryOperator::Less => TokenKind::Mark(Mark::Less),
        BinaryOperator::LessEqual => TokenKind::Mark(Mark::LessEqual),
        BinaryOperator::Greater => TokenKind::Mark(Mark::Greater),
        BinaryOperator::GreaterEqual => TokenKind::Mark(Mark::GreaterEqual),
        BinaryOperator::ShiftLeftLogical => TokenKind::Word(Word::Sll),
        BinaryOperator::ShiftRightLogical => TokenKind::Word(Word::Srl),
        BinaryOperator::ShiftLeftArithmetic => TokenKind::Word(Word::Sla),
        BinaryOperator::ShiftRightArithmetic => TokenKind::Word(Word::Sra),
        BinaryOperator::RotateLeft => TokenKind::Word(Word::Rol),
        BinaryOperator::RotateRight => TokenKind::Word(Word::Ror),
        BinaryOperator::Add => TokenKind::Mark(Mark::Plus),
        BinaryOperator::Subtract => TokenKind::Mark(Mark::Minus),
        BinaryOperator::Concat => TokenKind::Mark(Mark::Ampersand),
        BinaryOperator::Multiply => TokenKind::Mark(Mark::Star),
        BinaryOperator::Divide => TokenKind::Mark(Mark::Slash),
        BinaryOperator::Mod => TokenKind::Word(Word::Mod),
        BinaryOperator::Rem => TokenKind::Word(Word::Rem),
        BinaryOperator::Power => TokenKind::Mark(Mark::DoubleStar),
    }
}
