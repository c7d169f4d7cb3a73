//! What a move says to whoever makes it, and what it is told.

use fix_core::Tick;
use step_data::{Attempt, End};

/// The call of the saved attempts that a move asks for. Each names the tip and the frame at that moment.
#[derive(Clone, Copy, Debug, PartialEq, Eq)]
pub enum Ask {
    None,
    /// The attempts begin anew from the tip under the frame.
    Begin,
    /// The next attempt, if it is there and ends by this time.
    Look { until: Tick },
    /// The next attempt was used.
    Consume,
}

/// What a move says.
#[derive(Clone, Copy, Debug, PartialEq, Eq)]
pub enum Moved {
    Ask(Ask),
    Ended(End),
}

/// The reply to the last ask.
#[derive(Clone, Copy)]
pub enum Answer<'a> {
    None,
    /// The attempt that was looked for.
    Here(&'a Attempt),
    /// It isn't there.
    Nothing,
    /// Whether the attempt that was used was there.
    Consumed(bool),
}
