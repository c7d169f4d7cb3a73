//! Reading expressions: the rules that they break, and the expressions with numbers for their names.
#![tactic(auto)]

mod attribute;
mod element;
mod kinds;
mod literal;
mod names;
mod noting;
mod operator;
mod read;
mod value;

pub use kinds::{is_vector, same_kind, value_type};
pub use literal::text_of;
pub use noting::note;
pub use read::{asked, expression, static_value};
