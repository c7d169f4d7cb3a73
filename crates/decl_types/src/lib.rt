//! Reading declarations.
#![tactic(auto)]

mod branch;
mod declaration;
mod nature;
mod quantity;

pub use declaration::{constants, declarations, signals, terminals};
pub use nature::nature_named;
pub use quantity::real_subtype;
