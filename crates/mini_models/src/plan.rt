use fix_core::{Fix, Tick};
use step_data::Options;

/// A change of the signal.
#[derive(Clone, Copy, PartialEq, Eq)]
pub struct Change {
    pub at: Tick,
    pub value: bool,
}

/// One quantity that is low or high as the signal says, and one signal that changes once.
#[derive(Clone, Copy, PartialEq, Eq)]
pub struct Plan {
    pub low: Fix,
    pub high: Fix,
    /// The longest step that is accepted.
    pub longest: u64,
    pub change: Option<Change>,
    /// A cycle at this time is refused.
    pub failure: Option<Tick>,
    pub options: Options,
}
