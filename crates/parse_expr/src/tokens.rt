//! What a token is read as.

ghost use Rattle.std.specs.Prelude.{◌≡◌};
ghost use Rattle.ams_tree.specs.Terminals as terminals;
ghost use Rattle.parse_steps.specs.Reading.{from_next};

use ams_token::{Mark, Place, Token, TokenKind, Word};
use ams_tree::{BinaryOperator, Literal, LiteralValue, Name, Number, NumberValue, UnaryOperator};

#[tactic(auto, unfolding(ams_tree::specs::Terminals::name_of))]
pub fn name_of(next: Option<Token>) -> Option<Name>
    ensures { result ≡ from_next terminals.name_of next }
{
    let token = next?;
    match token.kind {
        TokenKind::Name(number) => Some(Name {
            number,
            place: token.place,
        }),
        _ => None,
    }
}

#[tactic(auto, unfolding(ams_tree::specs::Terminals::number_of))]
pub fn number_of(next: Option<Token>) -> Option<Number>
    ensures { result ≡ from_next terminals.number_of next }
{
    let token = next?;
    let value = match token.kind {
        TokenKind::Int(value) => NumberValue::Int(value),
        TokenKind::Real(value) => NumberValue::Real(value),
        _ => return None,
    };
    Some(Number {
        value,
        place: token.place,
    })
}

#[tactic(auto, unfolding(ams_tree::specs::Terminals::literal_of))]
pub fn literal_of(next: Option<Token>) -> Option<Literal>
    ensures { result ≡ from_next terminals.literal_of next }
{
    let token = next?;
    let value = match token.kind {
        TokenKind::Char(code) => LiteralValue::Char(code),
        TokenKind::Str(number) => LiteralValue::Str(number),
        TokenKind::Bits(number) => LiteralValue::Bits(number),
        _ => return None,
    };
    Some(Literal {
        value,
        place: token.place,
    })
}

#[tactic(auto, unfolding(ams_tree::specs::Terminals::multiplying))]
pub fn multiplying(next: Option<Token>) -> Option<BinaryOperator>
    ensures { result ≡ from_next terminals.multiplying next }
{
    match next?.kind {
        TokenKind::Mark(Mark::Star) => Some(BinaryOperator::Multiply),
        TokenKind::Mark(Mark::Slash) => Some(BinaryOperator::Divide),
        TokenKind::Word(Word::Mod) => Some(BinaryOperator::Mod),
        TokenKind::Word(Word::Rem) => Some(BinaryOperator::Rem),
        _ => None,
    }
}

#[tactic(auto, unfolding(ams_tree::specs::Terminals::adding))]
pub fn adding(next: Option<Token>) -> Option<BinaryOperator>
    ensures { result ≡ from_next terminals.adding next }
{
    match next?.kind {
        TokenKind::Mark(Mark::Plus) => Some(BinaryOperator::Add),
        TokenKind::Mark(Mark::Minus) => Some(BinaryOperator::Subtract),
        TokenKind::Mark(Mark::Ampersand) => Some(BinaryOperator::Concat),
        _ => None,
    }
}

#[tactic(auto, unfolding(ams_tree::specs::Terminals::shifting))]
pub fn shifting(next: Option<Token>) -> Option<BinaryOperator>
    ensures { result ≡ from_next terminals.shifting next }
{
    match next?.kind {
        TokenKind::Word(Word::Sll) => Some(BinaryOperator::ShiftLeftLogical),
        TokenKind::Word(Word::Srl) => Some(BinaryOperator::ShiftRightLogical),
        TokenKind::Word(Word::Sla) => Some(BinaryOperator::ShiftLeftArithmetic),
        TokenKind::Word(Word::Sra) => Some(BinaryOperator::ShiftRightArithmetic),
        TokenKind::Word(Word::Rol) => Some(BinaryOperator::RotateLeft),
        TokenKind::Word(Word::Ror) => Some(BinaryOperator::RotateRight),
        _ => None,
    }
}

#[tactic(auto, unfolding(ams_tree::specs::Terminals::relating))]
pub fn relating(next: Option<Token>) -> Option<BinaryOperator>
    ensures { result ≡ from_next terminals.relating next }
{
    match next?.kind {
        TokenKind::Mark(Mark::Equal) => Some(BinaryOperator::Equal),
        TokenKind::Mark(Mark::NotEqual) => Some(BinaryOperator::NotEqual),
        TokenKind::Mark(Mark::Less) => Some(BinaryOperator::Less),
        TokenKind::Mark(Mark::LessEqual) => Some(BinaryOperator::LessEqual),
        TokenKind::Mark(Mark::Greater) => Some(BinaryOperator::Greater),
        TokenKind::Mark(Mark::GreaterEqual) => Some(BinaryOperator::GreaterEqual),
        _ => None,
    }
}

#[tactic(auto, unfolding(ams_tree::specs::Terminals::sign))]
pub fn sign(next: Option<Token>) -> Option<(UnaryOperator, Place)>
    ensures { result ≡ from_next terminals.sign next }
{
    let token = next?;
    match token.kind {
        TokenKind::Mark(Mark::Plus) => Some((UnaryOperator::Plus, token.place)),
        TokenKind::Mark(Mark::Minus) => Some((UnaryOperator::Minus, token.place)),
        _ => None,
    }
}

#[tactic(auto, unfolding(ams_tree::specs::Terminals::prefix))]
pub fn prefix(next: Option<Token>) -> Option<(UnaryOperator, Place)>
    ensures { result ≡ from_next terminals.prefix next }
{
    let token = next?;
    match token.kind {
        TokenKind::Word(Word::Abs) => Some((UnaryOperator::Abs, token.place)),
        TokenKind::Word(Word::Not) => Some((UnaryOperator::Not, token.place)),
        _ => None,
    }
}
