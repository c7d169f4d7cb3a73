//! What each work leaves.

ghost use Rattle.std.specs.Prelude.{◌≡◌, ◌≤◌, ◌<◌, ◌-◌, max, length, false, ℤ, List, Result};
ghost use Rattle.step_data.specs.Steps.{next};
ghost use Rattle.step_data.specs.declared.outcome.Cause.{Cause};
ghost use Rattle.step_model.specs.Answers.{trial_answer, trial_point};
ghost use Rattle.step_model.specs.System.{Landing};
ghost use Rattle.lockstep_model.specs.Crossing.{is_near, middle, narrowed};
ghost use Rattle.above_events.specs.Locating.{with_point};
ghost use Rattle.run_place.specs.Outcomes.{started_left, too_small, unsolvable_left, solution_left, refused_left, cycled_left, crossed_left, halved_left, sided_left, renewed_at};
ghost use Rattle.run_place.specs.Decisions.{chosen_at, stepped_at};

use crate::place::{RunPlace, Stage};
use above_events::Locate;
use fix_core::Tick;
use message_codes::{SINGULAR, STEP_TOO_SMALL};
use std::mem::swap;
use step_data::{
    Attempt, Cause, Choices, End, Frame, Kind, Point, Refusal, ThresholdList, Tip, Trial,
};

/// The tip goes on behind an attempt from it; the one before is kept.
pub fn go_on(before: &mut Tip, tip: &mut Tip, made: &Attempt)
    requires before { length before.old.x ≡ length tip.old.x }
    requires made { length made.now.x ≡ length tip.old.x }
    ensures before { before.new ≡ tip.old }
    ensures tip { tip.new ≡ next tip.old made.now }
{
    swap(before, tip);
    match made.kind {
        Kind::Accepted => {
            tip.t = made.end;
            tip.x.copy_from(&made.x);
            tip.h = made.next_h;
            tip.fresh = false;
        }
        Kind::Rejected => {
            tip.copy_from(before);
            tip.h = made.next_h;
        }
        Kind::Failed => tip.copy_from(before),
    }
}

impl RunPlace {
    /// A point was given by these branches, where they were chosen.
    pub fn choose(&mut self, is_chosen: bool, branches: &Choices)
        requires { length self.old.branches ≡ length branches.now }
        ensures { self.new ≡ chosen_at is_chosen branches.now self.old }
    {
        if is_chosen {
            self.branches.copy_from(branches);
            self.has_branches = true;
        }
    }

    /// At a later time, with the values at the later bound, which are swapped.
    pub(crate) fn step_to(&mut self, t: Tick, is_chosen: bool, branches: &Choices)
        requires { length self.old.branches ≡ length branches.now }
        ensures { self.new ≡ stepped_at t is_chosen branches.now self.old }
    {
        self.time = t;
        self.delta = 0;
        swap(&mut self.point, &mut self.at_hi);
        self.choose(is_chosen, branches);
    }

    /// A step became too small: the run ends where the refused one was to end.
    pub fn end_small(&mut self, t: Tick, code: u8)
        ensures { self.new ≡ too_small t code self.old }
    {
        self.stage = Stage::Finished(End::Refused {
            t,
            refusal: Refusal {
                code: STEP_TOO_SMALL,
                detail: Some(u32::from(code)),
            },
        });
    }

    /// A solution was refused.
    pub fn end_unsolvable(&mut self, cause: Cause)
        ensures { self.new ≡ unsolvable_left cause self.old }
    {
        let detail = if cause.code == SINGULAR {
            Some(cause.column)
        } else {
            None
        };
        self.stage = Stage::Finished(End::Refused {
            t: self.time,
            refusal: Refusal {
                code: cause.code,
                detail,
            },
        });
    }

    /// A call of the digital side was refused.
    pub fn end_refused(&mut self, refusal: Refusal)
        ensures { self.new ≡ refused_left refusal self.old }
    {
        self.stage = Stage::Finished(End::Refused {
            t: self.time,
            refusal,
        });
    }

    /// The tip goes to the point, with the first step.
    fn renew(&mut self, h0: u64)
        requires { length self.old.tip.x ≡ length self.old.point }
        ensures { self.new ≡ renewed_at h0 self.old }
    {
        self.tip.t = self.time;
        self.tip.x.copy_from(&self.point);
        self.tip.h = h0;
        self.tip.fresh = true;
    }

    /// The point is a solution under the frame; these branches were chosen.
    pub fn solve(
        &mut self,
        to_time: bool,
        h0: u64,
        frame: &Frame,
        is_chosen: bool,
        branches: &Choices,
    )
        requires tip { length self.old.tip.x ≡ length self.old.point }
        requires frame { length self.old.solved ≡ length frame.now }
        requires branches { length self.old.branches ≡ length branches.now }
        ensures { self.new ≡ solution_left to_time h0 frame.now is_chosen branches.now self.old }
    {
        self.choose(is_chosen, branches);
        self.stage = Stage::InCycle { to_time };
        if self.timed {
            self.renew(h0);
        } else {
            self.solved.copy_from(frame);
            self.is_solved = true;
        }
    }

    /// The start was made.
    pub fn start(&mut self, broke: bool)
        ensures { self.new ≡ started_left broke self.old }
    {
        self.stage = Stage::Placed;
        self.broke = broke;
    }

    /// A cycle was made; the elements that it executed are gathered.
    pub fn cycle(&mut self, to_time: bool, h0: u64, broke: bool, is_renewed: bool)
        requires tip { length self.old.tip.x ≡ length self.old.point }
        ensures { self.new ≡ cycled_left to_time h0 broke is_renewed self.old }
    {
        self.stage = Stage::Placed;
        self.timed = self.timed || to_time;
        self.broke = broke;
        if is_renewed {
            self.renew(h0);
        }
    }

    /// A try was made.
    pub fn count_try(&mut self)
        requires { 1 ≤ self.old.tries_left }
        ensures { self.new ≡ record self.old { tries_left = self.old.tries_left - 1 } }
    {
        self.tries_left -= 1;
    }

    /// The later one of the time and the tip's time.
    fn earlier_bound(&self) -> Tick
        ensures { result ≡ max self.now.time self.now.tip.t }
    {
        if self.time <= self.tip.t {
            self.tip.t
        } else {
            self.time
        }
    }

    /// A step to this time crossed a threshold; the values there are those at the later bound.
    pub fn cross(&mut self, t: Tick, xres: u64)
        requires order { max self.old.time self.old.tip.t < t }
        requires distance { 1 ≤ xres }
        ensures { self.new ≡ crossed_left t xres self.old }
    {
        let lo = self.earlier_bound();
        self.search = Locate::new(lo, t, xres);
        self.stage = Stage::InSearch;
    }

    /// A side step of so many ticks was refused.
    pub fn halve(&mut self, step: u64)
        ensures { self.new ≡ halved_left step self.old }
    {
        self.tip.h = step / 2;
    }

    /// A side step arrived, with the values at the later bound, and these branches.
    pub fn arrive_at(&mut self, t: Tick, next: &Option<Tick>, is_chosen: bool, branches: &Choices)
        requires { length self.old.branches ≡ length branches.now }
        ensures { self.new ≡ sided_left t next.now is_chosen branches.now self.old }
    {
        self.step_to(t, is_chosen, branches);
        self.arrive(next);
    }

    /// How far the next probe goes.
    pub fn probe_step(&self) -> u64
        requires far { is_near self.now.search.xres (with_point self.now.search self.now.at_hi) ≡ false }
        requires order { self.now.tip.t ≤ self.now.search.lo }
        ensures { result ≡ middle (with_point self.now.search self.now.at_hi) - self.now.tip.t }
    {
        match self.search.middle() {
            Some(middle) => middle.get() - self.tip.t.get(),
            None => 0,
        }
    }

    /// Narrows the bounds by the answer of the step to the middle, which left its values in `x`.
    pub fn narrow(&mut self, answer: Trial, thresholds: &ThresholdList, x: &mut Point)
        requires far { self.old.search.xres < self.old.search.hi - self.old.search.lo }
        requires room { length x.old ≡ length self.old.at_hi }
        ensures bounds { (step : Result Landing Cause) (tip : List ℤ) → answer ≡ trial_answer step → x.old ≡ trial_point tip step →
            with_point self.new.search self.new.at_hi ≡ narrowed thresholds.now (with_point self.old.search self.old.at_hi) step }
        ensures xres { self.new.search.xres ≡ self.old.search.xres }
        ensures lengths { (length x.new ≡ length x.old) × (length self.new.at_hi ≡ length self.old.at_hi) }
        ensures same { self.new ≡ record self.old { search = self.new.search; at_hi = self.new.at_hi } }
    {
        self.search
            .narrow_by(answer, thresholds, x, &mut self.at_hi);
    }
}
