//! One statement of an instance, read for its numbers.
#![tactic(auto)]

mod numbered;
mod request;

pub use numbered::number_statement;
pub use request::request_of;
