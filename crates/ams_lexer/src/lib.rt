//! From the bytes of a text to its tokens, with their places.
#![tactic(auto)]

mod fault;
mod kinds;
mod lexer;
mod marks;
mod numbers;
mod pieces;
mod runs;
mod strings;

pub use fault::LexFault;
pub use lexer::{has_one_cut, lex};
