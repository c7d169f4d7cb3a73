ghost use Rattle.std.specs.Prelude.{◌≡◌, ◌≤◌, length};
ghost use Rattle.step_model.specs.System.{attempt_by};
ghost use Rattle.mini_models.specs.Mini.{SolvesAs, level, step};
ghost use Rattle.mini_models.specs.Solver.{count_of, count-bounded};

use crate::plan::Plan;
use ams_value::Val;
use fix_core::{Fix, Tick};
use message_codes::ERROR_TOO_LARGE;
use std::marker::{Model, PhantomData};
use step_data::{
    Attempt, BreakList, Cause, Choices, ChooseKind, Frame, Kind, Point, SetKind, Settled, Tip,
    Trial,
};
use step_model::{Design, Stepper, accept, refuse};

/// A solver of one quantity that has one of two levels.
#[derive(Drop)]
pub struct Level<D: Design> {
    plan: Plan,
    part: u32,
    made: u64,
    design: PhantomData<D>,
}

impl<D: Design> Model for Level<D> {
    ghost use Rattle.mini_models.specs.Solver.{Solver};

    ghost Value = { Solver };

    ghost use Rattle.mini_models.specs.Mini.{SolvesAs};

    ghost view = { λ a. record { part = a.part; made = a.made } };

    ghost invariant = { λ a. SolvesAs (D.system a.part) a.plan };
}

/// The step was longer than the longest one.
const TOO_LONG: Cause = Cause {
    code: ERROR_TOO_LARGE,
    column: 0,
};

impl Plan {
    fn level(&self, frame: &Frame) -> Fix
        ensures { result ≡ level self.now frame.now }
    {
        match frame.as_slice() {
            [Val::Bool(true), ..] => self.high,
            _ => self.low,
        }
    }

    #[tactic(auto, using(crate::proofs::One::set_first))]
    fn attempt(&self, frame: &Frame, tip: &Tip, out: &mut Attempt)
        requires time { tip.now.t ≤ 1000000000000000 }
        requires step { tip.now.h ≤ 1000000000000 }
        requires point { length tip.now.x ≡ 1 }
        requires room { length out.old.x ≡ 1 }
        ensures value { out.new ≡ attempt_by self.now.options tip.now (step self.now frame.now tip.now tip.now.h) }
        ensures length { length out.new.x ≡ 1 }
    {
        if tip.h <= self.longest {
            out.x.set(0, self.level(frame));
            accept(&self.options, tip, 0, out);
        } else {
            refuse(&self.options, tip, TOO_LONG, out);
        }
    }
}

impl<D: Design> Level<D> {
    /// A solver of a part of the design that has made nothing yet.
    pub fn new(plan: &Plan, part: u32) -> Level<D>
        requires { SolvesAs (D.system part) plan.now }
        ensures { result ≡ record { part = part; made = 0 } }
    {
        Level {
            plan: *plan,
            part,
            made: 0,
            design: PhantomData,
        }
    }
}

impl<D: Design> Stepper<D> for Level<D> {
    ghost part = { λ solver. solver.part };

    ghost count = { count_of };

    fn unknowns(&self) -> usize {
        let _plan = &self.plan;
        1
    }

    fn frame_len(&self) -> usize {
        let _plan = &self.plan;
        1
    }

    fn choices(&self) -> usize {
        let _plan = &self.plan;
        0
    }

    #[tactic(auto, using(crate::proofs::One::set_first))]
    fn initial(&self, out: &mut Point) {
        let _plan = &self.plan;
        out.set(0, Fix::exactly(0));
    }

    #[tactic(auto, using(crate::proofs::One::set_first))]
    fn trial(&mut self, frame: &Frame, tip: &Tip, s: u64, out: &mut Point) -> Trial {
        self.made = self.made.saturating_add(1);
        if s <= self.plan.longest {
            out.set(0, self.plan.level(frame));
            Trial::Good { err: 0 }
        } else {
            out.copy_from(&tip.x);
            Trial::Refused(TOO_LONG)
        }
    }

    #[tactic(auto, using(crate::proofs::One::attempt_is))]
    fn attempt(&mut self, frame: &Frame, tip: &Tip, out: &mut Attempt) {
        self.made = self.made.saturating_add(1);
        self.plan.attempt(frame, tip, out);
    }

    #[tactic(auto, using(crate::proofs::One::set_first))]
    fn settle(
        &mut self,
        frame: &Frame,
        _t: Tick,
        _set: SetKind,
        _breaks: &BreakList,
        x: &mut Point,
    ) -> Settled {
        x.set(0, self.plan.level(frame));
        Settled::Good
    }

    fn choose(
        &mut self,
        _frame: &Frame,
        _t: Tick,
        _kind: ChooseKind,
        _x: &Point,
        _out: &mut Choices,
    ) -> Settled {
        let _plan = &self.plan;
        Settled::Good
    }

    ghost bounded = { count-bounded };
}
