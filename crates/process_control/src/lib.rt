//! The statements that lead a process through its text: what counts next, and if, case, loops, exit, next and wait.
#![tactic(auto)]

mod control;
mod next;

pub use control::{
    Wait, perform_case, perform_exit, perform_for, perform_if, perform_loop, perform_next,
    perform_wait,
};
pub use next::{Counted, End, Parameter, coming};
