//! The data that pass between the analogue solver, the digital kernel and the mixed cycle. Times are ticks of 1 ps, and
//! values are whole numbers of units of 10^-12.
#![tactic(auto)]

pub mod breaks;
pub mod event;
pub mod frame;
pub mod outcome;
pub mod tip;
pub mod trans;

pub use ams_point::Point;
pub use breaks::{BreakList, Element, ThresholdList, ThresholdState};
pub use event::{Event, EventList, Text};
pub use frame::{Choices, Frame};
pub use outcome::{Cause, ChooseKind, End, Kind, Options, Ran, Refusal, SetKind, Settled, Trial};
pub use tip::{Attempt, Tip};
pub use trans::Trans;
