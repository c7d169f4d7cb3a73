//! Calls of the solver, each compared with its row.
ghost use Rattle.std.specs.Prelude.{◌≡◌, ◌<◌, IsTrue, length, IfOk};
ghost use Rattle.std.specs.List.{All};
ghost use Rattle.fix_core.specs.Fixed.{IsInRange};
ghost use Rattle.flat_design.specs.Order.{unknown_count};
ghost use Rattle.design_meaning.specs.Steps.{selections_of};
ghost use Rattle.system_model.specs.System.{is_element};
ghost use Rattle.equation_values.specs.Evaluable.{IsFrame};
ghost use Rattle.solver_designs.specs.Designs.{charged_capacitor};

use crate::rows::{SettledRow, StepRow};
use ams_point::Point;
use fix_core::{Fix, Tick};
use set_solver::SetSolver;
use std::alloc::{AllocError, Global};
use std::process::Abort;
use step_data::{
    Attempt, BreakList, Cause, Choices, ChooseKind, Element, Frame, Options, SetKind, Settled, Tip,
    Trial,
};
use step_parts::record_attempt;

/// The latest time and the longest step of a case.
const MOST: u64 = 1_000_000;

/// The unknown of the capacitor's voltage.
const CAPACITOR: u32 = 4;

/// The options of the cases: steps from one tick to 1 us, residuals up to 10^-6, and errors up to 0.001.
pub fn options() -> Options {
    Options {
        stop: Tick::new(MOST).unwrap(),
        ahead: 0,
        h0: 1000,
        hmin: 1,
        hmax: MOST,
        tol: 1_000_000,
        ltol: 1_000_000_000,
        xres: 1,
    }
}

fn are_values(x: &Point, want: &[i128]) -> bool {
    if x.len() != want.len() {
        return false;
    }
    for i in 0..want.len() {
        if x.get(i).units() != want[i] {
            return false;
        }
    }
    true
}

/// Why a step was refused.
fn cause_of(trial: Trial) -> Cause {
    match trial {
        Trial::Good { .. } => Cause::NONE,
        Trial::Refused(cause) => cause,
    }
}

fn is_attempt(attempt: &Attempt, row: &StepRow) -> bool {
    attempt.end.get() == row.end
        && attempt.kind == row.kind
        && attempt.next_h == row.next_h
        && attempt.cause == cause_of(row.trial)
        && are_values(&attempt.x, row.x)
}

/// The step from the tip gives what its row says.
pub fn steps(
    rt: &impl Abort,
    solver: &mut SetSolver<'_>,
    options: &Options,
    frame: &Frame,
    tip: &Tip,
    out: &mut Attempt,
    row: &StepRow,
)
    requires frame { IsFrame solver.old frame.now }
    requires point { length tip.now.x ≡ unknown_count solver.old }
    requires room { length out.old.x ≡ unknown_count solver.old }
    ensures design { solver.new ≡ solver.old }
    ensures room { length out.new.x ≡ unknown_count solver.old }
{
    assert!(rt; tip.t.get() <= MOST && tip.h <= MOST);
    let trial = solver.trial(options, frame, tip, tip.h, &mut out.x);
    assert!(rt; trial == row.trial);
    record_attempt(options, tip, trial, out);
    assert!(rt; is_attempt(out, row));
    assert!(rt; out.x.len() == tip.x.len());
}

/// The tip behind an attempt.
pub fn advance(rt: &impl Abort, tip: &mut Tip, attempt: &Attempt)
    requires { length tip.old.x ≡ length attempt.now.x }
    ensures { length tip.new.x ≡ length attempt.now.x }
{
    tip.advance(attempt);
    assert!(rt; tip.x.len() == attempt.x.len());
}

/// The solution at one time from the values in `x` gives what its row says.
pub fn settles(
    rt: &impl Abort,
    solver: &mut SetSolver<'_>,
    frame: &Frame,
    t: Tick,
    set: SetKind,
    breaks: &BreakList,
    x: &mut Point,
    row: &SettledRow,
)
    requires frame { IsFrame solver.old frame.now }
    requires elements { All (λ e. IsTrue (is_element solver.old e)) breaks.now }
    requires point { length x.old ≡ unknown_count solver.old }
    ensures design { solver.new ≡ solver.old }
    ensures point { length x.new ≡ unknown_count solver.old }
{
    let settled = solver.settle(&options(), frame, t, set, breaks, x);
    assert!(rt; settled == row.settled);
    assert!(rt; are_values(x, row.x));
}

/// A break of the capacitor's dot, by which a quantity has a value.
#[tactic(auto, using(crate::proofs::Elements::one_element))]
pub fn break_of(alloc: Global, quantity: u32, units: i128) -> Result<BreakList, AllocError>
    requires quantity { quantity < 6 }
    requires units { IsInRange units }
    ensures { IfOk result (λ list. All (λ e. IsTrue (is_element charged_capacitor e)) list) }
{
    let mut list = BreakList::new(alloc);
    list.push(Element {
        selector: CAPACITOR,
        quantity,
        value: Fix::exactly(units),
    })?;
    Ok(list)
}

/// The one choice takes this branch.
pub fn chooses(
    rt: &impl Abort,
    solver: &mut SetSolver<'_>,
    frame: &Frame,
    kind: ChooseKind,
    tip: &Tip,
    out: &mut Choices,
    branch: u32,
)
    requires frame { IsFrame solver.old frame.now }
    requires point { length tip.now.x ≡ unknown_count solver.old }
    requires room { length out.old ≡ length (selections_of solver.old.equations) }
    ensures design { solver.new ≡ solver.old }
    ensures room { length out.new ≡ length (selections_of solver.old.equations) }
{
    let settled = solver.choose(frame, tip.t, kind, &tip.x, out);
    assert!(rt; settled == Settled::Good);
    assert!(rt; out.len() == 1);
    assert!(rt; out.get(0) == branch);
}
