use above_events::Locate;
use fix_core::Tick;
use step_data::{BreakList, Choices, End, Frame, Point, Tip};

/// What comes next.
#[derive(Clone, Copy, Debug, PartialEq, Eq)]
pub enum Stage {
    /// The start.
    Unstarted,
    /// What follows at a place.
    Placed,
    /// A delta, which is solved first where it has to be; whether DOMAIN becomes TIME_DOMAIN in it.
    InDelta { to_time: bool },
    /// The cycle of a delta.
    InCycle { to_time: bool },
    /// A step up to the next time.
    InPhase,
    /// A probe of a crossing.
    InSearch,
    /// Nothing.
    Finished(End),
}

/// All that a run holds between two works but the digital side, with the points and choices that it needs again.
#[derive(Drop)]
pub struct RunPlace {
    pub stage: Stage,
    /// How many cycles, and how many attempts, side steps and probes are left.
    pub cycles_left: u32,
    pub tries_left: u32,
    /// The digital time and the delta at it.
    pub time: Tick,
    pub delta: u32,
    /// DOMAIN is TIME_DOMAIN.
    pub timed: bool,
    /// The last cycle executed a break.
    pub broke: bool,
    /// The values that processes read.
    pub point: Point,
    /// From where steps are made.
    pub tip: Tip,
    /// The frame of the last quiescent solution, where there was one.
    pub is_solved: bool,
    pub solved: Frame,
    /// The break elements that were executed before TIME_DOMAIN.
    pub gathered: BreakList,
    /// The branches at the last point that was given, where there was one.
    pub has_branches: bool,
    pub branches: Choices,
    /// The bounds of a crossing, and the values at the later one.
    pub search: Locate,
    pub at_hi: Point,
}
