//! What a run on threads gives.

use step_data::End;
use step_model::Design;
use timeline::{Counts, Timeline};
use trace_sink::TraceFault;

/// What a run gave: how it ended, how many attempts the engine made itself, how often the timeline gave each reply, the
/// trace, and the timeline where the header was written.
#[derive(Drop)]
pub struct Traced<D: Design, W: Drop> {
    pub ended: Result<End, TraceFault>,
    pub own: u64,
    pub counts: Counts,
    pub trace: W,
    pub timeline: Option<Timeline<D>>,
}

/// The counts of a run that didn't begin.
pub const NO_COUNTS: Counts = Counts {
    begins: 0,
    taken: 0,
    saved: 0,
    stale: 0,
    reused: 0,
    closed: 0,
};
