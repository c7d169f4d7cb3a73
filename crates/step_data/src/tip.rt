ghost use Rattle.std.specs.Prelude.{◌≡◌, ◌<◌, ◌↔◌, length, replicate, pos, true, IfOk, IsTrue};
ghost use Rattle.step_data.specs.Steps.{next, blank_tip, blank_attempt};
ghost use Rattle.step_data.specs.Same.{same_tip};

use crate::outcome::{Cause, Kind};
use ams_point::Point;
use fix_core::Tick;
use std::alloc::{AllocError, Global};

/// Where the analogue side stands: a time, the values there, and the step in ticks that is tried next. It is fresh
/// until a step from it was accepted: the first step is backward Euler's, later ones are trapezoidal.
#[derive(Drop)]
pub struct Tip {
    pub t: Tick,
    pub x: Point,
    pub h: u64,
    pub fresh: bool,
}

/// One attempt of a step.
#[derive(Drop)]
pub struct Attempt {
    /// The tip's time and step together.
    pub end: Tick,
    pub kind: Kind,
    /// The values at its end, or the tip's where it wasn't accepted.
    pub x: Point,
    /// The step of the tip behind it.
    pub next_h: u64,
    /// Why it wasn't accepted.
    pub cause: Cause,
}

impl Cause {
    /// No fault.
    pub const NONE: Cause = Cause { code: 0, column: 0 };
}

impl Tip {
    /// A fresh tip at time 0 with so many zeros and a step of one tick.
    pub fn blank(alloc: Global, unknowns: usize) -> Result<Tip, AllocError>
        ensures { IfOk result (λ tip. tip ≡ blank_tip unknowns) }
    {
        let x = Point::new(alloc, unknowns)?;
        Ok(Tip {
            t: Tick::new(0).unwrap(),
            x,
            h: 1,
            fresh: true,
        })
    }

    /// Becomes the tip behind an attempt from this one, without memory.
    pub fn advance(&mut self, attempt: &Attempt)
        requires { length self.old.x ≡ length attempt.now.x }
        ensures { self.new ≡ next self.old attempt.now }
    {
        match attempt.kind {
            Kind::Accepted => {
                self.t = attempt.end;
                self.x.copy_from(&attempt.x);
                self.h = attempt.next_h;
                self.fresh = false;
            }
            Kind::Rejected => self.h = attempt.next_h,
            Kind::Failed => {}
        }
    }

    /// Takes over the other tip, without memory.
    pub fn copy_from(&mut self, other: &Tip)
        requires { length self.old.x ≡ length other.now.x }
        ensures { self.new ≡ other.now }
    {
        self.t = other.t;
        self.x.copy_from(&other.x);
        self.h = other.h;
        self.fresh = other.fresh;
    }

    /// The two tips agree in everything.
    pub fn is_same(&self, other: &Tip) -> bool
        ensures test { result ≡ same_tip self.now other.now }
        ensures same { IsTrue result ↔ (self.now ≡ other.now) }
    {
        self.t == other.t
            && self.h == other.h
            && self.fresh == other.fresh
            && self.x.is_same(&other.x)
    }
}

impl Attempt {
    /// An attempt of so many zeros that ends at time 0.
    pub fn blank(alloc: Global, unknowns: usize) -> Result<Attempt, AllocError>
        ensures { IfOk result (λ attempt. attempt ≡ blank_attempt unknowns) }
    {
        let x = Point::new(alloc, unknowns)?;
        Ok(Attempt {
            end: Tick::new(0).unwrap(),
            kind: Kind::Accepted,
            x,
            next_h: 1,
            cause: Cause::NONE,
        })
    }

    /// Takes over the other attempt, without memory.
    pub fn copy_from(&mut self, other: &Attempt)
        requires { length self.old.x ≡ length other.now.x }
        ensures { self.new ≡ other.now }
    {
        self.end = other.end;
        self.kind = other.kind;
        self.x.copy_from(&other.x);
        self.next_h = other.next_h;
        self.cause = other.cause;
    }

    /// The two attempts agree in everything.
    pub fn is_same(&self, other: &Attempt) -> bool
        ensures { IsTrue result ↔ (self.now ≡ other.now) }
    {
        self.end == other.end
            && self.kind == other.kind
            && self.next_h == other.next_h
            && self.cause == other.cause
            && self.x.is_same(&other.x)
    }
}
