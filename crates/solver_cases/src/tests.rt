//! Each design with its rows.
ghost use Rattle.std.specs.Prelude.{◌≡◌, ◌∷◌, [], true, false, length, IsTrue, IfOk};
ghost use Rattle.std.specs.List.{All};
ghost use Rattle.ams_value.specs.declared.val.Val.TheVariants.{Bit};
ghost use Rattle.system_model.specs.System.{is_element};
ghost use Rattle.solver_designs.specs.Designs as spec;

use crate::calls::{advance, break_of, chooses, options, settles, steps};
use crate::rows::{
    BY_EULER, BY_TRAPEZOID, EMPTIED, FIRST_STEP, HALVED, LOW, NOT_HALVED, RISEN, SECOND_STEP,
    SET_TO_TWO_VOLTS, STAYS, THIRD_STEP, TOO_LONG, TWO_SOURCES, UNSETTLED,
};
use ams_value::Val;
use fix_core::{Fix, Tick};
use flat_design::Flat;
use set_solver::SetSolver;
use solver_designs::{charged_capacitor, chosen_level, polynomial_slope};
use std::alloc::{AllocError, Global};
use std::process::Abort;
use std::test::Fail;
use step_data::{Attempt, BreakList, Choices, ChooseKind, Frame, SetKind, Tip};

/// The frame of a design that reads no signal.
fn no_frame(alloc: Global) -> Result<Frame, AllocError>
    ensures { IfOk result (λ frame. frame ≡ []) }
{
    Frame::new(alloc, 0)
}

// ---- the charged capacitor

/// How many unknowns it has.
const UNKNOWNS: usize = 9;

/// The numbers of the source's and of the capacitor's voltage.
const SOURCE: u32 = 0;

const CAPACITOR: u32 = 4;

/// A voltage of 2.0, and one of 3.0 where the source has 5.0.
const TWO: i128 = 2_000_000_000_000;

const THREE: i128 = 3_000_000_000_000;

fn capacitor_solver<'a>(alloc: Global, flat: &'a Flat) -> Result<SetSolver<'a>, AllocError>
    requires { flat.now ≡ spec.charged_capacitor }
    ensures { IfOk result (λ solver. solver ≡ spec.charged_capacitor) }
{
    SetSolver::new(alloc, flat)
}

/// The quiescent set, with two values of the source and with an empty capacitor.
#[tactic(auto, using(crate::proofs::Elements::capacitor_frame, crate::proofs::Elements::capacitor_count, crate::proofs::Elements::elements_of))]
fn begins(
    rt: &impl Abort,
    solver: &mut SetSolver<'_>,
    frame: &Frame,
    sources: &BreakList,
    empty: &BreakList,
    tip: &mut Tip,
)
    requires design { solver.old ≡ spec.charged_capacitor }
    requires frame { frame.now ≡ [] }
    requires sources { All (λ e. IsTrue (is_element spec.charged_capacitor e)) sources.now }
    requires empty { All (λ e. IsTrue (is_element spec.charged_capacitor e)) empty.now }
    requires point { length tip.old.x ≡ 9 }
    ensures design { solver.new ≡ solver.old }
    ensures point { length tip.new.x ≡ 9 }
{
    let set = SetKind::Quiescent;
    settles(
        rt,
        solver,
        frame,
        tip.t,
        set,
        sources,
        &mut tip.x,
        &TWO_SOURCES,
    );
    settles(rt, solver, frame, tip.t, set, empty, &mut tip.x, &EMPTIED);
}

/// Steps that are refused: two for their error, and one without convergence.
#[tactic(auto, using(crate::proofs::Elements::capacitor_frame, crate::proofs::Elements::capacitor_count))]
fn refuses(
    rt: &impl Abort,
    solver: &mut SetSolver<'_>,
    frame: &Frame,
    tip: &mut Tip,
    out: &mut Attempt,
)
    requires design { solver.old ≡ spec.charged_capacitor }
    requires frame { frame.now ≡ [] }
    requires point { length tip.old.x ≡ 9 }
    requires room { length out.old.x ≡ 9 }
    ensures design { solver.new ≡ solver.old }
    ensures point { length tip.new.x ≡ 9 }
    ensures room { length out.new.x ≡ 9 }
{
    let mut options = options();
    tip.h = 1_000_000;
    steps(rt, solver, &options, frame, tip, out, &HALVED);
    options.hmin = 600_000;
    steps(rt, solver, &options, frame, tip, out, &NOT_HALVED);
    options.hmin = 1;
    options.tol = 1;
    tip.h = 1000;
    steps(rt, solver, &options, frame, tip, out, &UNSETTLED);
}

/// At the end of the first step: a discontinuity without a break element, and one with the capacitor at 2.0 V.
#[tactic(auto, using(crate::proofs::Elements::capacitor_frame, crate::proofs::Elements::capacitor_count, crate::proofs::Elements::elements_of, crate::proofs::Elements::no_elements))]
fn breaks(
    rt: &impl Abort,
    solver: &mut SetSolver<'_>,
    frame: &Frame,
    none: &BreakList,
    two: &BreakList,
    out: &mut Attempt,
)
    requires design { solver.old ≡ spec.charged_capacitor }
    requires frame { frame.now ≡ [] }
    requires none { none.now ≡ [] }
    requires two { All (λ e. IsTrue (is_element spec.charged_capacitor e)) two.now }
    requires room { length out.old.x ≡ 9 }
    ensures design { solver.new ≡ solver.old }
    ensures room { length out.new.x ≡ 9 }
{
    let set = SetKind::Discontinuity;
    settles(rt, solver, frame, out.end, set, none, &mut out.x, &STAYS);
    settles(
        rt,
        solver,
        frame,
        out.end,
        set,
        two,
        &mut out.x,
        &SET_TO_TWO_VOLTS,
    );
}

/// The next step is made, and the tip moved to its end.
#[tactic(auto, using(crate::proofs::Elements::capacitor_frame, crate::proofs::Elements::capacitor_count))]
fn charges(
    rt: &impl Abort,
    solver: &mut SetSolver<'_>,
    frame: &Frame,
    tip: &mut Tip,
    out: &mut Attempt,
)
    requires design { solver.old ≡ spec.charged_capacitor }
    requires frame { frame.now ≡ [] }
    requires point { length tip.old.x ≡ 9 }
    requires room { length out.old.x ≡ 9 }
    ensures design { solver.new ≡ solver.old }
    ensures room { length out.new.x ≡ 9 }
{
    let options = options();
    steps(rt, solver, &options, frame, tip, out, &FIRST_STEP);
    advance(rt, tip, out);
    steps(rt, solver, &options, frame, tip, out, &SECOND_STEP);
    advance(rt, tip, out);
    steps(rt, solver, &options, frame, tip, out, &THIRD_STEP);
}

#[tactic(auto, using(crate::proofs::Elements::capacitor_frame, crate::proofs::Elements::capacitor_count))]
fn capacitor_rows(rt: &impl Abort, alloc: Global, flat: &Flat) -> Result<(), AllocError>
    requires { flat.now ≡ spec.charged_capacitor }
{
    let frame = no_frame(alloc)?;
    let none = BreakList::new(alloc);
    let sources = break_of(alloc, SOURCE, THREE)?;
    let empty = break_of(alloc, CAPACITOR, 0)?;
    let two = break_of(alloc, CAPACITOR, TWO)?;
    let mut tip = Tip::blank(alloc, UNKNOWNS)?;
    let mut out = Attempt::blank(alloc, UNKNOWNS)?;
    let mut solver = capacitor_solver(alloc, flat)?;
    begins(rt, &mut solver, &frame, &sources, &empty, &mut tip);
    refuses(rt, &mut solver, &frame, &mut tip, &mut out);
    steps(
        rt,
        &mut solver,
        &options(),
        &frame,
        &tip,
        &mut out,
        &FIRST_STEP,
    );
    breaks(rt, &mut solver, &frame, &none, &two, &mut out);
    charges(rt, &mut solver, &frame, &mut tip, &mut out);
    Ok(())
}

#[test]
fn the_capacitor_has_its_rows(rt: HostRuntime) -> Result<(), Fail> {
    let flat = charged_capacitor(rt.alloc())?;
    let answer = capacitor_rows(&rt, rt.alloc(), &flat);
    drop(flat);
    answer?;
    Ok(())
}

// ---- the polynomial slope

fn slope_solver<'a>(alloc: Global, flat: &'a Flat) -> Result<SetSolver<'a>, AllocError>
    requires { flat.now ≡ spec.polynomial_slope }
    ensures { IfOk result (λ solver. solver ≡ spec.polynomial_slope) }
{
    SetSolver::new(alloc, flat)
}

/// A fresh tip at 8000.
fn tip_at_8000(alloc: Global) -> Result<Tip, AllocError>
    ensures { IfOk result (λ tip. length tip.x ≡ 2) }
{
    let mut tip = Tip::blank(alloc, 2)?;
    tip.t = Tick::new(8000).unwrap();
    tip.h = 2000;
    tip.x.set(0, Fix::exactly(114_000_000_000));
    tip.x.set(1, Fix::exactly(48_000_000_000_000_000_000));
    Ok(tip)
}

#[tactic(auto, using(crate::proofs::Elements::slope_frame))]
fn slope_rows(rt: &impl Abort, alloc: Global, flat: &Flat) -> Result<(), AllocError>
    requires { flat.now ≡ spec.polynomial_slope }
{
    let frame = no_frame(alloc)?;
    let mut tip = tip_at_8000(alloc)?;
    let mut out = Attempt::blank(alloc, 2)?;
    let mut options = options();
    options.ltol = 20_000_000_000;
    let mut solver = slope_solver(alloc, flat)?;
    steps(rt, &mut solver, &options, &frame, &tip, &mut out, &TOO_LONG);
    tip.h = 1000;
    steps(rt, &mut solver, &options, &frame, &tip, &mut out, &BY_EULER);
    tip.fresh = false;
    steps(
        rt,
        &mut solver,
        &options,
        &frame,
        &tip,
        &mut out,
        &BY_TRAPEZOID,
    );
    Ok(())
}

#[test]
fn the_slope_has_its_rows(rt: HostRuntime) -> Result<(), Fail> {
    let flat = polynomial_slope(rt.alloc())?;
    let answer = slope_rows(&rt, rt.alloc(), &flat);
    drop(flat);
    answer?;
    Ok(())
}

// ---- the chosen level

fn level_solver<'a>(alloc: Global, flat: &'a Flat) -> Result<SetSolver<'a>, AllocError>
    requires { flat.now ≡ spec.chosen_level }
    ensures { IfOk result (λ solver. solver ≡ spec.chosen_level) }
{
    SetSolver::new(alloc, flat)
}

/// The signal's value.
fn level_frame(alloc: Global, high: bool) -> Result<Frame, AllocError>
    ensures { IfOk result (λ frame. frame ≡ Bit high ∷ []) }
{
    let mut frame = Frame::new(alloc, 1)?;
    frame.set(0, Val::Bit(high));
    Ok(frame)
}

/// The signal at '0': the branch after `else`.
#[tactic(auto, using(crate::proofs::Elements::level_frame, crate::proofs::Elements::no_elements))]
fn chooses_low(
    rt: &impl Abort,
    solver: &mut SetSolver<'_>,
    low: &Frame,
    none: &BreakList,
    tip: &mut Tip,
    out: &mut Choices,
)
    requires design { solver.old ≡ spec.chosen_level }
    requires frame { low.now ≡ Bit false ∷ [] }
    requires none { none.now ≡ [] }
    requires point { length tip.old.x ≡ 1 }
    requires room { length out.old ≡ 1 }
    ensures design { solver.new ≡ solver.old }
    ensures point { length tip.new.x ≡ 1 }
    ensures room { length out.new ≡ 1 }
{
    chooses(rt, solver, low, ChooseKind::Quiet, tip, out, 1);
    settles(
        rt,
        solver,
        low,
        tip.t,
        SetKind::Quiescent,
        none,
        &mut tip.x,
        &LOW,
    );
}

/// The signal at '1' from 7000 on: the branch of the condition.
#[tactic(auto, using(crate::proofs::Elements::level_frame))]
fn chooses_high(
    rt: &impl Abort,
    solver: &mut SetSolver<'_>,
    high: &Frame,
    tip: &mut Tip,
    choices: &mut Choices,
    out: &mut Attempt,
)
    requires design { solver.old ≡ spec.chosen_level }
    requires frame { high.now ≡ Bit true ∷ [] }
    requires point { length tip.old.x ≡ 1 }
    requires branches { length choices.old ≡ 1 }
    requires room { length out.old.x ≡ 1 }
{
    tip.t = Tick::new(7000).unwrap();
    tip.h = 3000;
    chooses(rt, solver, high, ChooseKind::Timed, tip, choices, 0);
    steps(rt, solver, &options(), high, tip, out, &RISEN);
}

fn level_rows(rt: &impl Abort, alloc: Global, flat: &Flat) -> Result<(), AllocError>
    requires { flat.now ≡ spec.chosen_level }
{
    let low = level_frame(alloc, false)?;
    let high = level_frame(alloc, true)?;
    let none = BreakList::new(alloc);
    let mut tip = Tip::blank(alloc, 1)?;
    let mut out = Attempt::blank(alloc, 1)?;
    let mut choices = Choices::new(alloc, 1)?;
    let mut solver = level_solver(alloc, flat)?;
    chooses_low(rt, &mut solver, &low, &none, &mut tip, &mut choices);
    chooses_high(rt, &mut solver, &high, &mut tip, &mut choices, &mut out);
    Ok(())
}

#[test]
fn the_level_has_its_rows(rt: HostRuntime) -> Result<(), Fail> {
    let flat = chosen_level(rt.alloc())?;
    let answer = level_rows(&rt, rt.alloc(), &flat);
    drop(flat);
    answer?;
    Ok(())
}
