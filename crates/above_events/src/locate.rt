ghost use Rattle.std.specs.Prelude.{◌≡◌, ◌<◌, ◌≤◌, ◌+◌, ◌-◌, ◌/◌, if◌then◌else◌, length, ℤ, List, Result, Option, IfSome};
ghost use Rattle.step_data.specs.declared.outcome.Cause.{Cause};
ghost use Rattle.step_model.specs.System.{Landing};
ghost use Rattle.step_model.specs.Answers.{trial_answer, trial_point};
ghost use Rattle.lockstep_model.specs.Crossing.{Bounds, is_near, narrowed};
ghost use Rattle.above_events.specs.Locating.{Span, with_point, middle_of, halved, crossed_by};

use crate::thresholds::differs;
use fix_core::Tick;
use std::marker::Model;
use std::mem::swap;
use step_data::{Point, ThresholdList, Trial};

/// The time half way between two.
fn half_way(lo: Tick, hi: Tick) -> Tick
    requires { lo ≤ hi }
    ensures { result ≡ lo + (hi - lo) / 2 }
{
    let start = lo.get();
    Tick::new(start + (hi.get() - start) / 2).unwrap()
}

/// The step with this answer led to a point at which a threshold differs.
fn crosses(answer: Trial, x: &Point, thresholds: &ThresholdList) -> bool
    ensures { result ≡ crossed_by answer thresholds.now x.now }
{
    match answer {
        Trial::Good { .. } => differs(x, thresholds),
        Trial::Refused(_) => false,
    }
}

/// Swaps the points where that is wanted.
fn swap_where(wanted: bool, x: &mut Point, at_hi: &mut Point)
    requires { length x.old ≡ length at_hi.old }
    ensures hi { at_hi.new ≡ (if wanted then x.old else at_hi.old) }
    ensures lengths { (length x.new ≡ length x.old) × (length at_hi.new ≡ length at_hi.old) }
{
    if wanted {
        swap(x, at_hi);
    }
}

/// The search of a crossing: between which times it lies, and how near these have to come. At the later time a threshold
/// differs; the values there stand beside it.
#[derive(Drop)]
pub struct Locate {
    lo: Tick,
    hi: Tick,
    xres: u64,
}

impl Model for Locate {
    ghost use Rattle.std.specs.Prelude.{◌<◌, ◌≤◌};
    ghost use Rattle.above_events.specs.Locating.{Span};

    ghost Value = { Span };

    ghost view = { λ a. record { lo = a.lo; hi = a.hi; xres = a.xres } };

    ghost invariant = { λ a. (a.lo < a.hi) × (1 ≤ a.xres) };
}

impl Locate {
    /// A search between two times, until they are so many ticks apart at most.
    pub fn new(lo: Tick, hi: Tick, xres: u64) -> Locate
        requires order { lo < hi }
        requires distance { 1 ≤ xres }
        ensures { result ≡ record { lo = lo; hi = hi; xres = xres } }
    {
        Locate { lo, hi, xres }
    }

    /// The time at which the next probe ends; none where the times are near enough.
    pub fn middle(&self) -> Option<Tick>
        ensures value { (x : List ℤ) → result ≡ middle_of self.now.xres (with_point self.now x) }
        ensures between { IfSome result (λ m. (self.now.lo < m) × (m < self.now.hi)) }
        ensures far { IfSome result (λ m. self.now.xres < self.now.hi - self.now.lo) }
    {
        if self.hi.get() - self.lo.get() <= self.xres {
            None
        } else {
            Some(half_way(self.lo, self.hi))
        }
    }

    /// Takes the middle for the later time where a threshold differs there, else for the earlier one.
    pub fn narrow(&mut self, differs: bool)
        requires { self.old.xres < self.old.hi - self.old.lo }
        ensures bounds { (x : List ℤ) → with_point self.new x ≡ halved differs (with_point self.old x) x }
        ensures xres { self.new.xres ≡ self.old.xres }
    {
        let middle = half_way(self.lo, self.hi);
        if differs {
            self.hi = middle;
        } else {
            self.lo = middle;
        }
    }

    /// Narrows by the answer of the step to the middle, which left its values in `x`: where a threshold differs there,
    /// they become the values at the later time, without a copy.
    pub fn narrow_by(
        &mut self,
        answer: Trial,
        thresholds: &ThresholdList,
        x: &mut Point,
        at_hi: &mut Point,
    )
        requires far { self.old.xres < self.old.hi - self.old.lo }
        requires room { length x.old ≡ length at_hi.old }
        ensures bounds { (step : Result Landing Cause) (tip : List ℤ) → answer ≡ trial_answer step → x.old ≡ trial_point tip step →
            with_point self.new at_hi.new ≡ narrowed thresholds.now (with_point self.old at_hi.old) step }
        ensures xres { self.new.xres ≡ self.old.xres }
        ensures lengths { (length x.new ≡ length x.old) × (length at_hi.new ≡ length at_hi.old) }
    {
        let crossed = crosses(answer, x, thresholds);
        swap_where(crossed, x, at_hi);
        self.narrow(crossed);
    }

    /// The later time.
    pub fn hi(&self) -> Tick
        ensures { result ≡ self.now.hi }
    {
        self.hi
    }
}
