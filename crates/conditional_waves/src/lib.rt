//! Waveforms with conditions, of concurrent signal assignments.
#![tactic(auto)]

mod chain;
mod wave;
mod waves;

pub use chain::{equivalent, signals};
pub use wave::{Wave, last_wave};
pub use waves::{Waves, conditionals};
