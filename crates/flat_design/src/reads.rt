//! Which signals the equations read.
ghost use Rattle.std.specs.Prelude.{◌≡◌, ◌<◌, length, map, filter, IfOk};
ghost use Rattle.std.specs.List.{range_with_len, list_any};
ghost use Rattle.flat_expr.specs.declared.expr.SignalName.TheVariants.{Signal, Threshold};
ghost use Rattle.flat_design.specs.Reads.{pair_reads, if_arm_reads, case_arm_reads, selection_reads, equation_reads, is_read, frame_of};

use crate::objects::{CaseArm, Equation, IfArm, Objects, Pair, Selection};
use flat_expr::SignalName;
use sqlite_items::Items;
use std::alloc::{AllocError, Global};

fn pair_reads(pair: &Pair, signal: SignalName) -> bool
    ensures { result ≡ pair_reads signal pair.now }
{
    pair.left.reads(signal) || pair.right.reads(signal)
}

fn pairs_read(pairs: &[Pair], signal: SignalName) -> bool
    ensures { result ≡ list_any (pair_reads signal) pairs.now }
{
    pairs.iter().any(|pair| pair_reads(pair, signal))
}

fn if_arms_read(arms: &[IfArm], signal: SignalName) -> bool
    ensures { result ≡ list_any (if_arm_reads signal) arms.now }
{
    arms.iter().any(|arm| arm.condition.reads(signal) || pairs_read(arm.pairs.as_slice(), signal))
}

fn case_arms_read(arms: &[CaseArm], signal: SignalName) -> bool
    ensures { result ≡ list_any (case_arm_reads signal) arms.now }
{
    arms.iter()
        .any(|arm| pairs_read(arm.pairs.as_slice(), signal))
}

fn selection_reads(selection: &Selection, signal: SignalName) -> bool
    ensures { result ≡ selection_reads signal selection.now }
{
    match selection {
        Selection::If(arms, last) => {
            if_arms_read(arms.as_slice(), signal) || pairs_read(last.as_slice(), signal)
        }
        Selection::Case(expression, arms) => {
            expression.reads(signal) || case_arms_read(arms.as_slice(), signal)
        }
    }
}

fn equation_reads(equation: &Equation, signal: SignalName) -> bool
    ensures { result ≡ equation_reads signal equation.now }
{
    match equation {
        Equation::Pair(pair) => pair_reads(pair, signal),
        Equation::Choice(choice) => selection_reads(&choice.selection, signal),
    }
}

fn is_read(equations: &[Equation], signal: SignalName) -> bool
    ensures { result ≡ list_any (equation_reads signal) equations.now }
{
    equations
        .iter()
        .any(|equation| equation_reads(equation, signal))
}

fn signals_read(
    alloc: Global,
    equations: &[Equation],
    count: u32,
) -> Result<Vec<SignalName>, AllocError>
    ensures { IfOk result (λ found. found.items ≡ filter (λ s. list_any (equation_reads s) equations.now) (map Signal (range_with_len 0 count))) }
{
    (0..count)
        .map(|i| SignalName::Signal(i))
        .filter(|signal| is_read(equations, *signal))
        .collect(alloc)
}

fn thresholds_read(
    alloc: Global,
    equations: &[Equation],
    count: u32,
) -> Result<Vec<SignalName>, AllocError>
    ensures { IfOk result (λ found. found.items ≡ filter (λ s. list_any (equation_reads s) equations.now) (map Threshold (range_with_len 0 count))) }
{
    (0..count)
        .map(|k| SignalName::Threshold(k))
        .filter(|signal| is_read(equations, *signal))
        .collect(alloc)
}

/// The signals of the frame: those that an equation or a condition reads, in signal order, and then the thresholds.
pub fn frame_of(alloc: Global, objects: &Objects) -> Result<Items<SignalName>, AllocError>
    requires signals { length objects.now.signals < 4294967296 }
    requires thresholds { length objects.now.thresholds < 4294967296 }
    ensures { IfOk result (λ frame. frame ≡ frame_of objects.now) }
{
    let equations = objects.equations.as_slice();
    let signals = signals_read(alloc, equations, objects.signals.len() as u32)?;
    let thresholds = thresholds_read(alloc, equations, objects.thresholds.len() as u32)?;
    let mut frame = Items::from_vec(signals);
    frame.append(Items::from_vec(thresholds))?;
    Ok(frame)
}
