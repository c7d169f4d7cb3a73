//! The tokens of the language, the tables of its words, marks and units of time, and the table of names.
#![tactic(auto)]

mod mark;
mod names;
mod tables;
mod time_unit;
mod token;
mod tokens;
mod word;

pub use mark::{MARKS, Mark};
pub use names::{ABOVE_NUMBER, DOT_NUMBER, EVENT_NUMBER, Names, RAMP_NUMBER};
pub use time_unit::{TIME_UNITS, TimeUnit};
pub use token::{Decimal, Integer, Place, Token, TokenKind};
pub use tokens::Tokens;
pub use word::{RESERVED_WORDS, Word};
