//! What is counted of an instance: the two numbers of its solvability count, its processes, and the limits on what all
//! instances have.
#![tactic(auto)]

mod counts;
mod instances;
mod limits;

pub use counts::{equations_of, out_count, process_count, quantity_count, sum_of};
pub use instances::{instance_of, with_instance};
pub use limits::limit_passed;
