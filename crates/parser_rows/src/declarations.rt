//! Short declarations and where they end, and one past the levels.

ghost use Rattle.std.specs.Prelude.{◌≤◌};
ghost use Rattle.parse_steps.specs.Reply.{most_levels};

use crate::tokens::tokens_of;
use ams_token::{Mark, TokenKind, Tokens, Word};
use parse_decl::declaration;
use parse_steps::ParseFault;
use std::alloc::{AllocError, Global};
use std::test::Fail;

const X: TokenKind = TokenKind::Name(7);

const STOP: TokenKind = TokenKind::Mark(Mark::Semicolon);

const COLON: TokenKind = TokenKind::Mark(Mark::Colon);

const COMMA: TokenKind = TokenKind::Mark(Mark::Comma);

const ASSIGN: TokenKind = TokenKind::Mark(Mark::Assign);

const OPEN: TokenKind = TokenKind::Mark(Mark::LeftParen);

const CLOSE: TokenKind = TokenKind::Mark(Mark::RightParen);

const IS: TokenKind = TokenKind::Word(Word::Is);

const ACROSS: TokenKind = TokenKind::Word(Word::Across);

const THROUGH: TokenKind = TokenKind::Word(Word::Through);

const TO: TokenKind = TokenKind::Word(Word::To);

const DOWNTO: TokenKind = TokenKind::Word(Word::Downto);

const RANGE: TokenKind = TokenKind::Word(Word::Range);

const SIGNAL: TokenKind = TokenKind::Word(Word::Signal);

const QUANTITY: TokenKind = TokenKind::Word(Word::Quantity);

const SUBTYPE: TokenKind = TokenKind::Word(Word::Subtype);

const TERMINAL: TokenKind = TokenKind::Word(Word::Terminal);

const CONSTANT: TokenKind = TokenKind::Word(Word::Constant);

const TYPE: TokenKind = TokenKind::Word(Word::Type);

const NATURE: TokenKind = TokenKind::Word(Word::Nature);

const REFERENCE: TokenKind = TokenKind::Word(Word::Reference);

// Short texts, and where each ends.
const SHORT_TEXTS: [(&[TokenKind], Result<usize, ParseFault>); 10] = [
    (&[SIGNAL, X, COLON, X, ASSIGN, X, STOP, X], Ok(7)),
    (
        &[SIGNAL, X, COLON, X, OPEN, X, DOWNTO, X, CLOSE, STOP],
        Ok(10),
    ),
    (&[CONSTANT, X, COLON, X, STOP], Err(ParseFault::Syntax(4))),
    (&[TERMINAL, X, COMMA, X, COLON, X, STOP], Ok(7)),
    (&[QUANTITY, X, ACROSS, X, THROUGH, X, TO, X, STOP], Ok(9)),
    (&[QUANTITY, X, THROUGH, X, STOP], Ok(5)),
    (&[TYPE, X, IS, OPEN, X, COMMA, X, CLOSE, STOP], Ok(9)),
    (
        &[NATURE, X, IS, X, ACROSS, X, THROUGH, X, REFERENCE, STOP],
        Ok(10),
    ),
    (&[SUBTYPE, X, IS, X, RANGE, X, TO, X, STOP], Ok(9)),
    (
        &[SUBTYPE, X, IS, X, RANGE, X, DOWNTO],
        Err(ParseFault::Syntax(6)),
    ),
];

fn end_of(alloc: Global, tokens: &Tokens, depth: u32) -> Result<usize, ParseFault>
    requires { depth ≤ most_levels }
{
    match declaration(alloc, tokens, 0, depth) {
        Ok((tree, end)) => {
            drop(tree);
            Ok(end)
        }
        Err(fault) => Err(fault),
    }
}

// Where the declaration of these tokens ends, or its fault.
fn end(
    alloc: Global,
    kinds: &[TokenKind],
    depth: u32,
) -> Result<Result<usize, ParseFault>, AllocError>
    requires { depth ≤ most_levels }
{
    let tokens = tokens_of(alloc, kinds)?;
    Ok(end_of(alloc, &tokens, depth))
}

#[test]
fn short_texts_end_in_their_places(rt: HostRuntime) -> Result<(), Fail> {
    for (kinds, want) in SHORT_TEXTS {
        assert_eq!(rt; end(rt.alloc(), kinds, 0)?, want);
    }
    assert_eq!(rt;
        end(rt.alloc(), &[SIGNAL, X, COLON, X, OPEN], 64)?,
        Err(ParseFault::TooDeep(4))
    );
    Ok(())
}
