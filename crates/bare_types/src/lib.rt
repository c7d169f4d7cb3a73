//! Names that stand in no expression: those of sensitivity lists and of break elements.
#![tactic(auto)]

mod quantities;
mod signals;
mod thresholds;
mod watched;
mod wrong;

pub use quantities::break_elements;
pub use signals::{add_signals, once, signals_in_some};
pub use watched::sensitivity;
