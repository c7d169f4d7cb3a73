//! Short texts and where they end, and texts past the limits.

ghost use Rattle.std.specs.Prelude.{◌≤◌};
ghost use Rattle.parse_steps.specs.Reply.{most_levels};

use crate::tokens::tokens_of;
use ams_token::{Integer, Mark, TokenKind, Tokens, Word};
use parse_expr::expression;
use parse_steps::ParseFault;
use std::alloc::{AllocError, Global};
use std::test::Fail;

const X: TokenKind = TokenKind::Name(7);

const FIVE: TokenKind = TokenKind::Int(Integer {
    digits: 5,
    base: 10,
    exponent: 0,
});

const OPEN: TokenKind = TokenKind::Mark(Mark::LeftParen);

const CLOSE: TokenKind = TokenKind::Mark(Mark::RightParen);

const COMMA: TokenKind = TokenKind::Mark(Mark::Comma);

const TICK: TokenKind = TokenKind::Mark(Mark::Tick);

const PLUS: TokenKind = TokenKind::Mark(Mark::Plus);

const EQUAL: TokenKind = TokenKind::Mark(Mark::Equal);

const AND: TokenKind = TokenKind::Word(Word::And);

const NAND: TokenKind = TokenKind::Word(Word::Nand);

const SLL: TokenKind = TokenKind::Word(Word::Sll);

// Short texts, and where each ends.
const SHORT_TEXTS: [(&[TokenKind], Result<usize, ParseFault>); 14] = [
    (&[X, NAND, X, NAND, X], Ok(3)),
    (&[X, AND, X, AND, X], Ok(5)),
    (&[X, EQUAL, PLUS], Err(ParseFault::Syntax(3))),
    (&[X, EQUAL, COMMA], Err(ParseFault::Syntax(2))),
    (&[X, SLL, X, SLL, X], Ok(3)),
    (&[], Err(ParseFault::Syntax(0))),
    (&[FIVE, X, X], Ok(2)),
    (&[X, OPEN, X, COMMA, X, CLOSE, X], Ok(6)),
    (&[X, TICK, TokenKind::ABOVE, OPEN, X, CLOSE], Ok(6)),
    (&[X, TICK, TokenKind::RAMP, X], Ok(3)),
    (&[X, TICK, TokenKind::RAMP, OPEN, X, COMMA, X, CLOSE], Ok(8)),
    (
        &[X, TICK, TokenKind::RAMP, OPEN, X, COMMA, X, COMMA],
        Err(ParseFault::Syntax(7)),
    ),
    (&[X, TICK, X], Err(ParseFault::Syntax(2))),
    (
        &[
            TokenKind::Str(8),
            TokenKind::Mark(Mark::Ampersand),
            TokenKind::Bits(9),
        ],
        Ok(3),
    ),
];

fn end_of(alloc: Global, tokens: &Tokens, depth: u32) -> Result<usize, ParseFault>
    requires { depth ≤ most_levels }
{
    match expression(alloc, tokens, 0, depth) {
        Ok((tree, end)) => {
            drop(tree);
            Ok(end)
        }
        Err(fault) => Err(fault),
    }
}

// Where the expression of these tokens ends, or its fault.
fn end(
    alloc: Global,
    kinds: &[TokenKind],
    depth: u32,
) -> Result<Result<usize, ParseFault>, AllocError>
    requires { depth ≤ most_levels }
{
    let tokens = tokens_of(alloc, kinds)?;
    Ok(end_of(alloc, &tokens, depth))
}

#[test]
fn short_texts_end_in_their_places(rt: HostRuntime) -> Result<(), Fail> {
    for (kinds, want) in SHORT_TEXTS {
        assert_eq!(rt; end(rt.alloc(), kinds, 0)?, want);
    }
    assert_eq!(rt;
        end(rt.alloc(), &[OPEN, X, CLOSE], 64)?,
        Err(ParseFault::TooDeep(0))
    );
    Ok(())
}

fn parentheses(alloc: Global) -> Result<Vec<TokenKind>, AllocError> {
    let mut kinds = Vec::new(alloc);
    for _ in 0..1048576 {
        kinds.push(OPEN)?;
    }
    Ok(kinds)
}

fn sum(alloc: Global) -> Result<Vec<TokenKind>, AllocError> {
    let mut kinds = Vec::new(alloc);
    kinds.push(X)?;
    for _ in 0..257 {
        kinds.push(PLUS)?;
        kinds.push(X)?;
    }
    Ok(kinds)
}

#[test]
fn parentheses_pass_the_levels(rt: HostRuntime) -> Result<(), Fail> {
    let kinds = parentheses(rt.alloc())?;
    assert_eq!(rt; end(rt.alloc(), &kinds, 0)?, Err(ParseFault::TooDeep(64)));
    Ok(())
}

#[test]
fn a_sum_passes_the_operators(rt: HostRuntime) -> Result<(), Fail> {
    let kinds = sum(rt.alloc())?;
    assert_eq!(rt; end(rt.alloc(), &kinds, 0)?, Err(ParseFault::TooDeep(513)));
    Ok(())
}
