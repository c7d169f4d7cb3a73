//! What is decided without a work.

ghost use Rattle.std.specs.Prelude.{◌≡◌, ◌≤◌, ◌&&◌, ◌||◌, not, length};
ghost use Rattle.lockstep_model.specs.Crossing.{is_near};
ghost use Rattle.lockstep_model.specs.Lockstep.{stands, until_of};
ghost use Rattle.above_events.specs.Locating.{with_point};
ghost use Rattle.run_place.specs.Decisions.{needs_at, is_due_at, began, arrived_at, placed_at, delta_at, phase_at, search_at, end_with, at_tip_at};
ghost use Rattle.message_codes.specs.Codes as codes;

use crate::place::{RunPlace, Stage};
use fix_core::Tick;
use message_codes::{ATTEMPT_LIMIT, CYCLE_LIMIT, DELTA_LIMIT};
use step_data::{Choices, End, Frame, Refusal};

/// The most deltas at one time.
pub const DELTAS: u32 = 1000;

/// Digital work stands at the time, or before it.
pub fn stands(next: &Option<Tick>, t: Tick) -> bool
    ensures { result ≡ stands next.now t }
{
    match next {
        Some(m) => *m <= t,
        None => false,
    }
}

/// The next time, or the stop time where that is earlier or there is none.
pub fn until(next: &Option<Tick>, stop: Tick) -> Tick
    ensures { result ≡ until_of next.now stop }
{
    match next {
        Some(m) => { if *m <= stop { *m } else { stop } }
        None => stop,
    }
}

impl RunPlace {
    /// A budget is spent: the run ends at the digital time.
    fn end_with(&mut self, code: u8)
        ensures { self.new ≡ end_with code self.old }
    {
        self.stage = Stage::Finished(End::Refused {
            t: self.time,
            refusal: Refusal { code, detail: None },
        });
    }

    /// A cycle has to be preceded by a solution.
    pub fn needs_solution(&self, frame: &Frame) -> bool
        ensures { result ≡ needs_at self.now frame.now }
    {
        self.broke || (!self.timed && !(self.is_solved && self.solved.is_same(frame)))
    }

    /// A next delta is due.
    fn is_due(&self, next: &Option<Tick>, frame: &Frame) -> bool
        ensures { result ≡ is_due_at self.now next.now frame.now }
    {
        stands(next, self.time) || self.needs_solution(frame)
    }

    /// A delta, with one cycle less left.
    fn begin(&mut self, to_time: bool)
        ensures { self.new ≡ began to_time self.old }
    {
        if self.cycles_left == 0 {
            self.end_with(CYCLE_LIMIT);
        } else {
            self.cycles_left -= 1;
            self.stage = Stage::InDelta { to_time };
        }
    }

    /// At the next time: a delta where digital work stands, else the end.
    pub(crate) fn arrive(&mut self, next: &Option<Tick>)
        ensures { self.new ≡ arrived_at next.now self.old }
    {
        if stands(next, self.time) {
            self.begin(false);
        } else {
            self.stage = Stage::Finished(End::Reached(self.time));
        }
    }

    /// What follows at a place.
    pub fn decide_place(&mut self, next: &Option<Tick>, frame: &Frame, stop: Tick)
        ensures { self.new ≡ placed_at next.now frame.now stop self.old }
    {
        let is_due = self.is_due(next, frame);
        if is_due || !self.timed {
            if self.delta >= DELTAS {
                self.end_with(DELTA_LIMIT);
            } else {
                self.delta += 1;
                self.begin(!is_due);
            }
        } else if self.time == stop {
            self.stage = Stage::Finished(End::Reached(self.time));
        } else {
            self.stage = Stage::InPhase;
        }
    }

    /// A delta is solved first, or its cycle comes.
    pub fn decide_delta(&mut self, to_time: bool, frame: &Frame)
        ensures { self.new ≡ delta_at to_time frame.now self.old }
    {
        if !self.needs_solution(frame) {
            self.stage = Stage::InCycle { to_time };
        }
    }

    /// At the next time, with the tip's point there.
    fn stand_at_tip(&mut self, t: Tick)
        requires { length self.old.point ≡ length self.old.tip.x }
        ensures { self.new ≡ at_tip_at t self.old }
    {
        self.time = t;
        self.delta = 0;
        self.point.copy_from(&self.tip.x);
    }

    /// The bounds of a crossing are near enough.
    pub fn is_near(&self) -> bool
        ensures { result ≡ is_near self.now.search.xres (with_point self.now.search self.now.at_hi) }
    {
        match self.search.middle() {
            Some(_) => false,
            None => true,
        }
    }

    /// The later bound of a crossing.
    pub(crate) fn later(&self) -> Tick
        ensures { result ≡ self.now.search.hi }
    {
        self.search.hi()
    }

    /// In a phase: the arrival where the tip is there, and no step without tries.
    pub fn decide_phase(&mut self, next: &Option<Tick>, stop: Tick)
        requires { length self.old.point ≡ length self.old.tip.x }
        ensures { self.new ≡ phase_at next.now stop self.old }
    {
        let until = until(next, stop);
        if self.tip.t.get() == until.get() {
            self.stand_at_tip(until);
            self.arrive(next);
        } else if self.tries_left == 0 {
            self.end_with(ATTEMPT_LIMIT);
        }
    }

    /// In a search: the crossing where the bounds are near, by these branches where they were chosen, and no probe
    /// without tries.
    pub fn decide_search(&mut self, is_chosen: bool, branches: &Choices)
        requires { length self.old.branches ≡ length branches.now }
        ensures { self.new ≡ search_at is_chosen branches.now self.old }
    {
        if self.is_near() {
            let t = self.later();
            self.step_to(t, is_chosen, branches);
            self.begin(false);
        } else if self.tries_left == 0 {
            self.end_with(ATTEMPT_LIMIT);
        }
    }
}
