//! What the expressions of a statement give in a process. No call takes memory.
#![tactic(auto)]

mod activation;
mod condition;
mod delay;
mod element;
mod range;

pub use activation::{Activation, evaluated};
pub use condition::{holds, truth};
pub use delay::{delay_of, is_bad_delay, limit_of, time_after, timeout_of};
pub use element::{Subtypes, Timed, assigned_value, parts_make_assignments, transaction};
pub use range::{LoopRange, further_value, loop_range, ranges_begin_loops, ranges_lead};
