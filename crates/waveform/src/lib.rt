//! The drivers of signals: each with its current value and its projected waveform.
#![tactic(auto)]

mod driver;
mod project;
mod trans;

pub use driver::Driver;
pub use project::projection_keeps_times_rising;
pub use trans::{DelayKind, INLINE_PLACES, TransList};
