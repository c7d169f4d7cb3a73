//! What the analogue solver and the digital kernel promise to the mixed cycle, as functions of one system.
#![tactic(auto)]

pub mod attempts;
pub mod contracts;
pub mod kernel_stage;

pub use attempts::{accept, refuse};
pub use contracts::{Design, Kernel, Stepper};
pub use kernel_stage::KernelStage;
