use crate::names::Names;
use crate::token::{Place, Token};

/// The tokens of a text, the table of its names and strings, and the place behind its last byte.
#[derive(Drop)]
pub struct Tokens {
    pub list: Vec<Token>,
    pub names: Names,
    pub end: Place,
}
