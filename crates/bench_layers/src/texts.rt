//! The pieces of work on a text.

use ams_lexer::lex;
use ams_parser::parse;
use std::alloc::Global;

/// A piece of work on a whole text, as its name says.
#[derive(Clone, Copy)]
pub enum TextWork {
    Lex,
    /// From the bytes to the tree.
    Parse,
}

impl TextWork {
    pub fn named(name: &str) -> Option<TextWork> {
        match name {
            "lex" => Some(TextWork::Lex),
            "parse" => Some(TextWork::Parse),
            _ => None,
        }
    }

    /// How often the work succeeds, of so many times.
    pub fn sum(self, alloc: Global, text: &[u8], count: u64) -> u64 {
        let mut sum = 0u64;
        for _ in 0..count {
            let done = match self {
                TextWork::Lex => lex(alloc, text).is_ok(),
                TextWork::Parse => is_parsed(alloc, text),
            };
            sum = sum.wrapping_add(u64::from(done));
        }
        sum
    }
}

fn is_parsed(alloc: Global, text: &[u8]) -> bool {
    match lex(alloc, text) {
        Ok(tokens) => parse(alloc, &tokens).is_ok(),
        Err(_) => false,
    }
}
