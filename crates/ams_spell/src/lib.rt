//! The kinds of the tokens that spell declarations, statements and design files.
#![tactic(auto)]

mod call;
mod concurrents;
mod declarations;
mod designs;
mod nested;
mod parts;
mod statements;

pub use call::{spell, spell_concurrent, spell_declaration, spell_statement};
