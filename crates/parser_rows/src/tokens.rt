use ams_token::{Names, Place, Token, TokenKind, Tokens};
use std::alloc::{AllocError, Global};

/// Tokens of these kinds, all at one place.
pub fn tokens_of(alloc: Global, kinds: &[TokenKind]) -> Result<Tokens, AllocError> {
    let mut list = Vec::new(alloc);
    let end = Place { line: 1, column: 1 };
    for kind in kinds {
        list.push(Token {
            kind: *kind,
            place: end,
            from: 0,
            to: 0,
        })?;
    }
    let names = Names::new(alloc)?;
    Ok(Tokens { list, names, end })
}
