//! Short texts and where they end, and texts past the levels.

ghost use Rattle.std.specs.Prelude.{◌≤◌};
ghost use Rattle.parse_steps.specs.Reply.{most_levels};

use crate::tokens::tokens_of;
use ams_token::{Mark, TokenKind, Tokens, Word};
use parse_conc::concurrent;
use parse_steps::ParseFault;
use std::alloc::{AllocError, Global};
use std::test::Fail;

const X: TokenKind = TokenKind::Name(7);

const STOP: TokenKind = TokenKind::Mark(Mark::Semicolon);

const COLON: TokenKind = TokenKind::Mark(Mark::Colon);

const OPEN: TokenKind = TokenKind::Mark(Mark::LeftParen);

const CLOSE: TokenKind = TokenKind::Mark(Mark::RightParen);

const SIGNAL: TokenKind = TokenKind::Mark(Mark::LessEqual);

const EQUALS: TokenKind = TokenKind::Mark(Mark::DoubleEqual);

const ARROW: TokenKind = TokenKind::Mark(Mark::Arrow);

const WHEN: TokenKind = TokenKind::Word(Word::When);

const ELSE: TokenKind = TokenKind::Word(Word::Else);

const IF: TokenKind = TokenKind::Word(Word::If);

const USE: TokenKind = TokenKind::Word(Word::Use);

const END: TokenKind = TokenKind::Word(Word::End);

const ENTITY: TokenKind = TokenKind::Word(Word::Entity);

const PORT: TokenKind = TokenKind::Word(Word::Port);

const MAP: TokenKind = TokenKind::Word(Word::Map);

const PROCESS: TokenKind = TokenKind::Word(Word::Process);

const BEGIN: TokenKind = TokenKind::Word(Word::Begin);

const NULL: TokenKind = TokenKind::Word(Word::Null);

const OPEN_WORD: TokenKind = TokenKind::Word(Word::Open);

const THEN: TokenKind = TokenKind::Word(Word::Then);

const ELSIF: TokenKind = TokenKind::Word(Word::Elsif);

// Short texts, and where each ends.
const SHORT_TEXTS: [(&[TokenKind], Result<usize, ParseFault>); 9] = [
    (
        &[X, COLON, X, SIGNAL, X, WHEN, X, ELSE, X, WHEN, X, STOP, X],
        Ok(12),
    ),
    (&[X, SIGNAL, X, ELSE], Err(ParseFault::Syntax(3))),
    (
        &[X, SIGNAL, X, WHEN, X, ELSE, X, ELSE],
        Err(ParseFault::Syntax(7)),
    ),
    (&[X, OPEN, X, CLOSE, EQUALS, X, STOP], Ok(7)),
    (
        &[
            X, COLON, ENTITY, X, PORT, MAP, OPEN, X, ARROW, OPEN_WORD, CLOSE, STOP,
        ],
        Ok(12),
    ),
    (&[ENTITY, X], Err(ParseFault::Syntax(0))),
    (&[PROCESS, BEGIN, NULL, STOP, END, PROCESS, X, STOP], Ok(8)),
    (
        &[
            IF, X, USE, X, EQUALS, X, STOP, ELSIF, X, USE, ELSE, END, USE, STOP,
        ],
        Ok(14),
    ),
    (&[IF, X, THEN], Err(ParseFault::Syntax(2))),
];

// Texts at so many open levels, and where each ends.
const DEEP_TEXTS: [(&[TokenKind], u32, Result<usize, ParseFault>); 5] = [
    (&[PROCESS], 64, Err(ParseFault::TooDeep(0))),
    (&[PROCESS, OPEN], 63, Err(ParseFault::TooDeep(1))),
    (&[IF, OPEN], 63, Err(ParseFault::TooDeep(1))),
    (
        &[X, COLON, ENTITY, X, PORT, MAP, OPEN],
        64,
        Err(ParseFault::TooDeep(6)),
    ),
    (&[X, EQUALS, X, STOP], 64, Ok(4)),
];

fn end_of(alloc: Global, tokens: &Tokens, depth: u32) -> Result<usize, ParseFault>
    requires { depth ≤ most_levels }
{
    match concurrent(alloc, tokens, 0, depth) {
        Ok((tree, end)) => {
            drop(tree);
            Ok(end)
        }
        Err(fault) => Err(fault),
    }
}

// Where the statement of these tokens ends, or its fault.
fn end(
    alloc: Global,
    kinds: &[TokenKind],
    depth: u32,
) -> Result<Result<usize, ParseFault>, AllocError>
    requires { depth ≤ most_levels }
{
    let tokens = tokens_of(alloc, kinds)?;
    Ok(end_of(alloc, &tokens, depth))
}

#[test]
fn short_texts_end_in_their_places(rt: HostRuntime) -> Result<(), Fail> {
    for (kinds, want) in SHORT_TEXTS {
        assert_eq!(rt; end(rt.alloc(), kinds, 0)?, want);
    }
    Ok(())
}

#[test]
fn levels_open_at_first_tokens(rt: HostRuntime) -> Result<(), Fail> {
    for (kinds, depth, want) in DEEP_TEXTS {
        assert_eq!(rt; end(rt.alloc(), kinds, depth)?, want);
    }
    Ok(())
}
