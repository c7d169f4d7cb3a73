//! Where a kernel stands between two calls.

use step_data::Refusal;

/// What became of a kernel so far.
#[derive(Clone, Copy, Debug, PartialEq, Eq)]
pub enum KernelStage {
    /// No process has run yet.
    Unstarted,
    /// Each process stands at a wait.
    Going,
    /// A call was refused, and each later one is.
    Ended(Refusal),
    /// A call found no memory, and no later one does.
    Lost,
}
