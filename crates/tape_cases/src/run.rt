//! What an expression gives.
ghost use Rattle.std.specs.Prelude.{◌≡◌, ◌≤◌, Some};
ghost use Rattle.fix_core.specs.Units.{most_ticks};
ghost use Rattle.ams_value.specs.declared.value_type.ValueType.TheVariants.{Real};
ghost use Rattle.design_meaning.specs.Typed.{typed};
ghost use Rattle.tape_cases.specs.Rows.{rows_scope};

use crate::point::Point;
use crate::types::type_in_rows;
use ams_value::{Val, ValueType};
use design_meaning::EvalFault;
use eval_tape::{Tape, Work};
use expr_eval::value;
use fix_core::{Fix, MOST_TICKS};
use flat_expr::{FlatExpr, Unknown};
use std::alloc::{AllocError, Global};

/// The value and the slopes by the quantities, in units of 10^-12.
#[derive(Clone, Copy)]
pub struct Sloped {
    pub value: i128,
    pub first: i128,
    pub second: i128,
    pub third: i128,
}

/// What an expression gives.
#[derive(Drop)]
pub enum Answer {
    /// One of REAL, by its tape.
    Number(Sloped),
    /// One of another type.
    Value(Val),
    /// The first fault.
    Fault(EvalFault),
}

/// Compiles an expression of REAL and runs it.
fn run_tape(alloc: Global, expr: &FlatExpr, point: &Point) -> Result<Answer, AllocError>
    requires kind { typed rows_scope expr.now ≡ Some Real }
    requires time { point.now.time ≤ most_ticks }
{
    let unknowns = [
        Unknown::Quantity(0),
        Unknown::Quantity(1),
        Unknown::Quantity(2),
    ];
    let tape = Tape::compile(alloc, expr, &unknowns)?;
    let mut work = Work::new(alloc, tape.len())?;
    let mut slopes = [Fix::exactly(0); 3];
    Ok(match tape.slopes(expr, point, &mut work, &mut slopes) {
        Ok(number) => Answer::Number(Sloped {
            value: number.units(),
            first: slopes[0].units(),
            second: slopes[1].units(),
            third: slopes[2].units(),
        }),
        Err(fault) => Answer::Fault(fault),
    })
}

/// Evaluates an expression of a type.
fn run_tree(expr: &FlatExpr, kind: ValueType, point: &Point) -> Answer
    requires kind { typed rows_scope expr.now ≡ Some kind }
    requires time { point.now.time ≤ most_ticks }
{
    match value(expr, point) {
        Ok(found) => Answer::Value(found),
        Err(fault) => Answer::Fault(fault),
    }
}

/// What an expression gives at a point: one of REAL by its tape, another one by itself; none where it has no type.
pub fn run_row(
    alloc: Global,
    expr: &FlatExpr,
    point: &Point,
) -> Result<Option<Answer>, AllocError> {
    if point.time.get() > MOST_TICKS {
        return Ok(None);
    }
    match type_in_rows(expr) {
        Some(ValueType::Real) => Ok(Some(run_tape(alloc, expr, point)?)),
        Some(kind) => Ok(Some(run_tree(expr, kind, point))),
        None => Ok(None),
    }
}
