//! A process between two runs. The functions of `laws` are laws, which are proved and do nothing when they run.
#![tactic(auto)]

mod begin;
mod laws;

pub use begin::begin_again;
pub use laws::{processes_go_on_ready, processes_rest_ready, processes_start_ready};
