//! What the walk over the instances does between its readings.
#![tactic(auto)]

mod counted;
mod numbered;
mod requests;

pub use counted::{add_counted, instance_notes};
pub use numbered::{add_statement, statement_notes};
pub use requests::{first_site, inner_path, top_request};
