//! Parts of statements: expressions of a type, lists of parts, and signal assignments.
#![tactic(auto)]

mod expressions;
mod parts;
mod setting;
mod targets;
mod waveforms;

pub use expressions::{RUNNING, condition, may_be, must_be, typed};
pub use parts::{both, finish, found_thing, part_of, put};
pub use setting::Setting;
pub use targets::{range_part, suits, target, value_of};
pub use waveforms::{assignment, mechanism, waveform};
