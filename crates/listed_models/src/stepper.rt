//! A solver that answers what is listed.

ghost use Rattle.std.specs.Prelude.{◌≡◌, ◌≤◌, length, IfOk};
ghost use Rattle.std.specs.List.{position};
ghost use Rattle.step_model.specs.Answers.{trial_answer, trial_point, settled_answer, settled_value};
ghost use Rattle.step_model.specs.System.{attempt_by};
ghost use Rattle.listed_models.specs.Listing.{SolvesAs, is_step_of, is_solution_at, landing_of, values_of, step, solution};
ghost use Rattle.listed_models.specs.Running.{count_of, count-bounded};

use crate::rows::{SolutionRow, StepAnswer, StepRow};
use fix_core::{Fix, Tick};
use message_codes::ERROR_TOO_LARGE;
use std::alloc::{AllocError, Global};
use std::marker::{Model, PhantomData};
use step_data::{
    Attempt, BreakList, Cause, Choices, ChooseKind, Frame, Options, Point, SetKind, Settled, Tip,
    Trial,
};
use step_model::{Design, Stepper, accept, refuse};

/// The cause of what isn't listed.
const NOT_LISTED: Cause = Cause {
    code: ERROR_TOO_LARGE,
    column: 0,
};

/// A solver of one unknown, by lists of steps and solutions.
#[derive(Drop)]
pub struct Listed<D: Design> {
    steps: Vec<StepRow>,
    solutions: Vec<SolutionRow>,
    reads: bool,
    options: Options,
    made: u64,
    design: PhantomData<D>,
}

impl<D: Design> Model for Listed<D> {
    ghost use Rattle.std.specs.Prelude.{ℕ};

    ghost Value = { ℕ };

    ghost use Rattle.listed_models.specs.Listing.{SolvesAs};

    ghost view = { λ a. a.made };

    ghost invariant = { λ a. SolvesAs (D.system 0) a.steps.items a.solutions.items a.reads a.options };
}

fn is_step_of(row: &StepRow, t: Tick, s: u64) -> bool
    ensures { result ≡ is_step_of t s row.now }
{
    row.from == t && row.size == s
}

fn number_of_step(steps: &[StepRow], t: Tick, s: u64) -> Option<usize>
    ensures { result ≡ position (is_step_of t s) steps.now }
{
    steps.iter().position(|row| is_step_of(row, t, s))
}

fn is_solution_at(row: &SolutionRow, t: Tick) -> bool
    ensures { result ≡ is_solution_at t row.now }
{
    row.at == t
}

fn number_of_solution(solutions: &[SolutionRow], t: Tick) -> Option<usize>
    ensures { result ≡ position (is_solution_at t) solutions.now }
{
    solutions.iter().position(|row| is_solution_at(row, t))
}

/// What is listed of a step.
fn answer_of(steps: &[StepRow], t: Tick, s: u64) -> StepAnswer
    ensures { landing_of result ≡ step steps.now t s }
{
    match number_of_step(steps, t, s) {
        Some(i) => steps[i].answer,
        None => StepAnswer::Refused(NOT_LISTED),
    }
}

/// A step from a tip, by what is listed.
#[tactic(auto, using(crate::proofs::One::set_first))]
fn land(steps: &[StepRow], tip: &Tip, s: u64, out: &mut Point) -> Trial
    requires tip { length tip.now.x ≡ 1 }
    requires room { length out.old ≡ 1 }
    ensures answer { result ≡ trial_answer (step steps.now tip.now.t s) }
    ensures point { out.new ≡ trial_point tip.now.x (step steps.now tip.now.t s) }
    ensures length { length out.new ≡ 1 }
{
    match answer_of(steps, tip.t, s) {
        StepAnswer::Landed { value, err } => {
            out.set(0, value);
            Trial::Good {
                err: u128::from(err),
            }
        }
        StepAnswer::Refused(cause) => {
            out.copy_from(&tip.x);
            Trial::Refused(cause)
        }
    }
}

/// The attempt from a tip, by what is listed.
fn attempt(steps: &[StepRow], options: &Options, tip: &Tip, out: &mut Attempt)
    requires time { tip.now.t ≤ 1000000000000000 }
    requires size { tip.now.h ≤ 1000000000000 }
    requires point { length tip.now.x ≡ 1 }
    requires room { length out.old.x ≡ 1 }
    ensures value { out.new ≡ attempt_by options.now tip.now (step steps.now tip.now.t tip.now.h) }
    ensures length { length out.new.x ≡ 1 }
{
    match land(steps, tip, tip.h, &mut out.x) {
        Trial::Good { err } => accept(options, tip, err, out),
        Trial::Refused(cause) => refuse(options, tip, cause, out),
    }
}

/// What is listed of a solution.
fn value_of(solutions: &[SolutionRow], t: Tick) -> Result<Fix, Cause>
    ensures { values_of result ≡ solution solutions.now t }
{
    match number_of_solution(solutions, t) {
        Some(i) => Ok(solutions[i].value),
        None => Err(NOT_LISTED),
    }
}

/// The solution at a time, by what is listed.
#[tactic(auto, using(crate::proofs::One::set_first))]
fn settle(solutions: &[SolutionRow], t: Tick, x: &mut Point) -> Settled
    requires { length x.old ≡ 1 }
    ensures answer { result ≡ settled_answer (solution solutions.now t) }
    ensures point { x.new ≡ settled_value x.old (solution solutions.now t) }
    ensures length { length x.new ≡ 1 }
{
    match value_of(solutions, t) {
        Ok(value) => {
            x.set(0, value);
            Settled::Good
        }
        Err(cause) => Settled::Refused(cause),
    }
}

impl<D: Design> Listed<D> {
    /// A solver that has made nothing yet.
    pub fn new(
        alloc: Global,
        steps: &[StepRow],
        solutions: &[SolutionRow],
        reads: bool,
        options: &Options,
    ) -> Result<Listed<D>, AllocError>
        requires { SolvesAs (D.system 0) steps.now solutions.now reads options.now }
        ensures { IfOk result (λ listed. listed ≡ 0) }
    {
        Ok(Listed {
            steps: steps.to_vec(alloc)?,
            solutions: solutions.to_vec(alloc)?,
            reads,
            options: *options,
            made: 0,
            design: PhantomData,
        })
    }
}

impl<D: Design> Stepper<D> for Listed<D> {
    ghost part = { λ solver. 0 };

    ghost count = { count_of };

    fn unknowns(&self) -> usize {
        let _steps = &self.steps;
        1
    }

    fn frame_len(&self) -> usize {
        if self.reads { 1 } else { 0 }
    }

    fn choices(&self) -> usize {
        let _steps = &self.steps;
        0
    }

    #[tactic(auto, using(crate::proofs::One::set_first))]
    fn initial(&self, out: &mut Point) {
        let _steps = &self.steps;
        out.set(0, Fix::exactly(0));
    }

    fn trial(&mut self, _frame: &Frame, tip: &Tip, s: u64, out: &mut Point) -> Trial {
        self.made = self.made.saturating_add(1);
        land(self.steps.as_slice(), tip, s, out)
    }

    fn attempt(&mut self, _frame: &Frame, tip: &Tip, out: &mut Attempt) {
        self.made = self.made.saturating_add(1);
        attempt(self.steps.as_slice(), &self.options, tip, out);
    }

    fn settle(
        &mut self,
        _frame: &Frame,
        t: Tick,
        _set: SetKind,
        _breaks: &BreakList,
        x: &mut Point,
    ) -> Settled {
        settle(self.solutions.as_slice(), t, x)
    }

    fn choose(
        &mut self,
        _frame: &Frame,
        _t: Tick,
        _kind: ChooseKind,
        _x: &Point,
        _out: &mut Choices,
    ) -> Settled {
        let _steps = &self.steps;
        Settled::Good
    }

    ghost bounded = { count-bounded };
}
