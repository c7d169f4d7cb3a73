//! Reads declarations: of architectures, processes and entities.
#![tactic(auto)]

mod branches;
mod declarations;
mod interfaces;
mod parts;
mod read;
mod tokens;

pub use declarations::{any_declaration, process_declaration};
pub use interfaces::{generic, port_declaration};
pub use parts::word_said;
pub use read::{declaration, fronts_begin, one_tree};
pub use tokens::{begins_declaration, begins_process_declaration};
