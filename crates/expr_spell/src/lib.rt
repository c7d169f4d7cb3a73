//! The kinds of the tokens that spell an expression.
#![tactic(auto)]

mod kinds;
mod spell;

pub use kinds::literal_kind;
pub use spell::{put_expr, put_mark, put_name, spell_expr};
