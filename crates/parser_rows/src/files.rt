//! Short files and where they go wrong, and a file past the levels.

use crate::tokens::tokens_of;
use ams_parser::parse;
use ams_token::{Mark, TokenKind, Tokens, Word};
use parse_steps::ParseFault;
use std::alloc::{AllocError, Global};
use std::test::Fail;

const X: TokenKind = TokenKind::Name(7);

const STOP: TokenKind = TokenKind::Mark(Mark::Semicolon);

const COLON: TokenKind = TokenKind::Mark(Mark::Colon);

const COMMA: TokenKind = TokenKind::Mark(Mark::Comma);

const POINT: TokenKind = TokenKind::Mark(Mark::Point);

const ASSIGN: TokenKind = TokenKind::Mark(Mark::Assign);

const OPEN: TokenKind = TokenKind::Mark(Mark::LeftParen);

const CLOSE: TokenKind = TokenKind::Mark(Mark::RightParen);

const LIBRARY: TokenKind = TokenKind::Word(Word::Library);

const USE: TokenKind = TokenKind::Word(Word::Use);

const ALL: TokenKind = TokenKind::Word(Word::All);

const ENTITY: TokenKind = TokenKind::Word(Word::Entity);

const ARCHITECTURE: TokenKind = TokenKind::Word(Word::Architecture);

const OF: TokenKind = TokenKind::Word(Word::Of);

const IS: TokenKind = TokenKind::Word(Word::Is);

const PORT: TokenKind = TokenKind::Word(Word::Port);

const CONSTANT: TokenKind = TokenKind::Word(Word::Constant);

const BEGIN: TokenKind = TokenKind::Word(Word::Begin);

const END: TokenKind = TokenKind::Word(Word::End);

// Short files, and how many units each has.
const SHORT_FILES: [(&[TokenKind], Result<usize, ParseFault>); 9] = [
    (&[], Ok(0)),
    (&[ENTITY, X, IS], Err(ParseFault::Syntax(3))),
    (
        &[
            ENTITY,
            X,
            IS,
            END,
            STOP,
            ARCHITECTURE,
            X,
            OF,
            X,
            IS,
            BEGIN,
            END,
            ARCHITECTURE,
            X,
            STOP,
        ],
        Ok(2),
    ),
    (&[ENTITY, X, IS, END, STOP, END], Err(ParseFault::Syntax(5))),
    (
        &[ENTITY, X, IS, END, ARCHITECTURE, STOP],
        Err(ParseFault::Syntax(4)),
    ),
    (
        &[
            LIBRARY, X, COMMA, X, STOP, USE, X, POINT, X, POINT, ALL, STOP,
        ],
        Ok(2),
    ),
    (&[USE, X, STOP], Err(ParseFault::Syntax(2))),
    (&[USE, X, POINT, X, COMMA, X, POINT, X, STOP], Ok(1)),
    (
        &[ENTITY, X, IS, PORT, OPEN, X, COLON, X, STOP, CLOSE],
        Err(ParseFault::Syntax(9)),
    ),
];

// A file up to the value of a constant.
const BEFORE_A_VALUE: [TokenKind; 15] = [
    ENTITY,
    X,
    IS,
    END,
    STOP,
    ARCHITECTURE,
    X,
    OF,
    X,
    IS,
    CONSTANT,
    X,
    COLON,
    X,
    ASSIGN,
];

fn units_of(alloc: Global, tokens: &Tokens) -> Result<usize, ParseFault> {
    match parse(alloc, tokens) {
        Ok(file) => {
            let units = file.units.len();
            drop(file);
            Ok(units)
        }
        Err(fault) => Err(fault),
    }
}

// How many units the file of these tokens has, or its fault.
fn units(alloc: Global, kinds: &[TokenKind]) -> Result<Result<usize, ParseFault>, AllocError> {
    let tokens = tokens_of(alloc, kinds)?;
    Ok(units_of(alloc, &tokens))
}

#[test]
fn short_files_go_wrong_in_their_places(rt: HostRuntime) -> Result<(), Fail> {
    for (kinds, want) in SHORT_FILES {
        assert_eq!(rt; units(rt.alloc(), kinds)?, want);
    }
    Ok(())
}

fn deep_value(alloc: Global) -> Result<Vec<TokenKind>, AllocError> {
    let mut kinds = Vec::new(alloc);
    for kind in BEFORE_A_VALUE {
        kinds.push(kind)?;
    }
    for _ in 0..65 {
        kinds.push(OPEN)?;
    }
    Ok(kinds)
}

#[test]
fn a_deep_value_passes_the_levels(rt: HostRuntime) -> Result<(), Fail> {
    let kinds = deep_value(rt.alloc())?;
    assert_eq!(rt; units(rt.alloc(), &kinds)?, Err(ParseFault::TooDeep(79)));
    Ok(())
}
