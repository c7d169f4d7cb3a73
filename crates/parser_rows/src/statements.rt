//! Short texts and where they end, and texts past the levels.

ghost use Rattle.std.specs.Prelude.{◌≤◌};
ghost use Rattle.parse_steps.specs.Reply.{most_levels};

use crate::tokens::tokens_of;
use ams_token::{Mark, TokenKind, Tokens, Word};
use parse_seq::statement;
use parse_steps::ParseFault;
use std::alloc::{AllocError, Global};
use std::test::Fail;

const X: TokenKind = TokenKind::Name(7);

const STOP: TokenKind = TokenKind::Mark(Mark::Semicolon);

const COMMA: TokenKind = TokenKind::Mark(Mark::Comma);

const OPEN: TokenKind = TokenKind::Mark(Mark::LeftParen);

const SIGNAL: TokenKind = TokenKind::Mark(Mark::LessEqual);

const VARIABLE: TokenKind = TokenKind::Mark(Mark::Assign);

const ARROW: TokenKind = TokenKind::Mark(Mark::Arrow);

const BAR: TokenKind = TokenKind::Mark(Mark::Bar);

const IF: TokenKind = TokenKind::Word(Word::If);

const THEN: TokenKind = TokenKind::Word(Word::Then);

const CASE: TokenKind = TokenKind::Word(Word::Case);

const IS: TokenKind = TokenKind::Word(Word::Is);

const WHEN: TokenKind = TokenKind::Word(Word::When);

const FOR: TokenKind = TokenKind::Word(Word::For);

const LOOP: TokenKind = TokenKind::Word(Word::Loop);

const WAIT: TokenKind = TokenKind::Word(Word::Wait);

const UNTIL: TokenKind = TokenKind::Word(Word::Until);

const NULL: TokenKind = TokenKind::Word(Word::Null);

const END: TokenKind = TokenKind::Word(Word::End);

const TRANSPORT: TokenKind = TokenKind::Word(Word::Transport);

const AFTER: TokenKind = TokenKind::Word(Word::After);

const ELSIF: TokenKind = TokenKind::Word(Word::Elsif);

const ELSE: TokenKind = TokenKind::Word(Word::Else);

const OTHERS: TokenKind = TokenKind::Word(Word::Others);

const ON: TokenKind = TokenKind::Word(Word::On);

const LOOPS: [TokenKind; 65] = [LOOP; 65];

// Short texts, and where each ends.
const SHORT_TEXTS: [(&[TokenKind], Result<usize, ParseFault>); 9] = [
    (&[X, VARIABLE, X, STOP, X], Ok(4)),
    (&[X, SIGNAL, TRANSPORT, X, AFTER, X, COMMA, X, STOP], Ok(9)),
    (
        &[IF, X, THEN, NULL, STOP, ELSIF, X, THEN, ELSE, END, IF, STOP],
        Ok(12),
    ),
    (
        &[CASE, X, IS, WHEN, X, BAR, OTHERS, ARROW, END, CASE, STOP],
        Ok(11),
    ),
    (&[CASE, X, IS, END], Err(ParseFault::Syntax(3))),
    (
        &[WAIT, ON, X, COMMA, X, UNTIL, X, FOR, X, STOP, STOP],
        Ok(10),
    ),
    (&[WAIT, FOR, X, UNTIL], Err(ParseFault::Syntax(3))),
    (
        &[IF, X, THEN, X, VARIABLE, X, STOP, END, CASE],
        Err(ParseFault::Syntax(8)),
    ),
    (&[LOOP, END, LOOP], Err(ParseFault::Syntax(3))),
];

// Texts at so many open levels, and where each ends.
const DEEP_TEXTS: [(&[TokenKind], u32, Result<usize, ParseFault>); 6] = [
    (&LOOPS, 0, Err(ParseFault::TooDeep(64))),
    (&[IF, X], 64, Err(ParseFault::TooDeep(0))),
    (&[IF, OPEN], 63, Err(ParseFault::TooDeep(1))),
    (&[IF, X, THEN, IF], 63, Err(ParseFault::TooDeep(3))),
    (&[X, VARIABLE, OPEN], 64, Err(ParseFault::TooDeep(2))),
    (&[X, VARIABLE, X, STOP], 64, Ok(4)),
];

fn end_of(alloc: Global, tokens: &Tokens, depth: u32) -> Result<usize, ParseFault>
    requires { depth ≤ most_levels }
{
    match statement(alloc, tokens, 0, depth) {
        Ok((tree, end)) => {
            drop(tree);
            Ok(end)
        }
        Err(fault) => Err(fault),
    }
}

// Where the statement of these tokens ends, or its fault.
fn end(
    alloc: Global,
    kinds: &[TokenKind],
    depth: u32,
) -> Result<Result<usize, ParseFault>, AllocError>
    requires { depth ≤ most_levels }
{
    let tokens = tokens_of(alloc, kinds)?;
    Ok(end_of(alloc, &tokens, depth))
}

#[test]
fn short_texts_end_in_their_places(rt: HostRuntime) -> Result<(), Fail> {
    for (kinds, want) in SHORT_TEXTS {
        assert_eq!(rt; end(rt.alloc(), kinds, 0)?, want);
    }
    Ok(())
}

#[test]
fn levels_open_at_first_tokens(rt: HostRuntime) -> Result<(), Fail> {
    for (kinds, depth, want) in DEEP_TEXTS {
        assert_eq!(rt; end(rt.alloc(), kinds, depth)?, want);
    }
    Ok(())
}
