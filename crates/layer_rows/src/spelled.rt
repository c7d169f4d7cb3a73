//! The tokens of two short texts.

use ams_token::{Integer, Mark, Place, TokenKind, Word};
use ams_tree::{Attribute, BinaryOperator, Expr, Name, Number, NumberValue};
use expr_spell::spell_expr;
use sqlite_items::{Boxed, Items};
use std::alloc::{AllocError, Global};
use std::test::Fail;

const X: TokenKind = TokenKind::Name(7);

const INTEGER: Integer = Integer {
    digits: 5,
    base: 10,
    exponent: 0,
};

const FIVE: TokenKind = TokenKind::Int(INTEGER);

const OPEN: TokenKind = TokenKind::Mark(Mark::LeftParen);

const CLOSE: TokenKind = TokenKind::Mark(Mark::RightParen);

const COMMA: TokenKind = TokenKind::Mark(Mark::Comma);

const TICK: TokenKind = TokenKind::Mark(Mark::Tick);

const PLACE: Place = Place { line: 1, column: 1 };

fn x() -> Name {
    Name {
        number: 7,
        place: PLACE,
    }
}

fn five() -> Expr {
    let value = NumberValue::Int(INTEGER);
    Expr::Number(
        Number {
            value,
            place: PLACE,
        },
        None,
    )
}

fn ramp(alloc: Global) -> Result<Expr, AllocError> {
    let rise = Boxed::new(alloc, five())?;
    let fall = Boxed::new(alloc, Expr::Name(x()))?;
    Ok(Expr::Attribute(x(), Attribute::Ramp(Some(rise), Some(fall))))
}

// x(5, x mod 5)
#[test]
fn spells_a_call(rt: HostRuntime) -> Result<(), Fail> {
    let alloc = rt.alloc();
    let left = Boxed::new(alloc, Expr::Name(x()))?;
    let right = Boxed::new(alloc, five())?;
    let mut arguments = Items::new(alloc);
    arguments.push(five())?;
    arguments.push(Expr::Binary(BinaryOperator::Mod, left, right))?;
    let spelled = spell_expr(alloc, &Expr::Call(x(), arguments))?;
    let modulo = TokenKind::Word(Word::Mod);
    let wanted = [X, OPEN, FIVE, COMMA, X, modulo, FIVE, CLOSE];
    assert_eq!(rt; spelled.as_slice(), wanted.as_slice());
    Ok(())
}

// x'ramp(5, x)
#[test]
fn spells_a_ramp(rt: HostRuntime) -> Result<(), Fail> {
    let spelled = spell_expr(rt.alloc(), &ramp(rt.alloc())?)?;
    let wanted = [X, TICK, TokenKind::RAMP, OPEN, FIVE, COMMA, X, CLOSE];
    assert_eq!(rt; spelled.as_slice(), wanted.as_slice());
    Ok(())
}
