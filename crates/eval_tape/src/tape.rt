//! Tapes, and the room of their runs.
ghost use Rattle.std.specs.Prelude.{◌≡◌, ◌≤◌, length, pos, replicate, OnErr, IfOk, IfSome, Ok};
ghost use Rattle.fix_core.specs.Passes.{and_then};
ghost use Rattle.design_meaning.specs.Value.{number_of, value_of, slopes_of};
ghost use Rattle.expr_eval.specs.Condition.{CanEvaluate};
ghost use Rattle.tape_code.specs.Code.{code_of};
ghost use Rattle.eval_tape.specs.Tape.{constants_of, tape_of, IsValue};

use crate::run::{run_slopes, run_value};
use crate::short::short_value;
use constant_slopes::constant_slope;
use design_meaning::EvalFault;
use expr_eval::{Values, units, value};
use fix_core::Fix;
use flat_expr::{FlatExpr, Unknown};
use slope::slopes;
use std::alloc::{AllocError, Global};
use std::marker::Model;
use tape_code::{Instruction, compile};

/// Room for runs of tapes. It is seen as the most instructions that a tape may have.
#[derive(Drop)]
pub struct Work {
    numbers: Vec<Fix>,
    slopes: Vec<Fix>,
}

impl Model for Work {
    ghost use Rattle.std.specs.Prelude.{◌≡◌, ℕ, length};

    ghost Value = { ℕ };

    ghost view = { λ work. length work.numbers.items };

    ghost invariant = { λ work. length work.slopes.items ≡ length work.numbers.items };
}

impl Work {
    /// Room for tapes of at most so many instructions.
    pub fn new(alloc: Global, most: usize) -> Result<Work, AllocError>
        ensures { IfOk result (λ work. work ≡ most) }
    {
        let numbers = vec![in alloc; Fix::exactly(0); most]?;
        let slopes = vec![in alloc; Fix::exactly(0); most]?;
        Ok(Work { numbers, slopes })
    }
}

/// The slopes by these unknowns that are constant.
fn constant_slopes(
    alloc: Global,
    expr: &FlatExpr,
    unknowns: &[Unknown],
) -> Result<Vec<Option<Fix>>, AllocError>
    ensures { IfOk result (λ constants. constants.items ≡ constants_of expr.now unknowns.now) }
{
    let mut constants = Vec::new(alloc);
    for i in 0..unknowns.len() {
        constants.push(constant_slope(expr, unknowns[i]))?;
    }
    Ok(constants)
}

/// The instructions of an expression, the unknowns by which its slopes are asked, and the slopes that are constant.
#[derive(Drop)]
pub struct Tape {
    code: Vec<Instruction>,
    unknowns: Vec<Unknown>,
    constants: Vec<Option<Fix>>,
}

impl Model for Tape {
    ghost use Rattle.eval_tape.specs.Tape.{Content};

    ghost Value = { Content };

    ghost view = { λ tape. record { code = tape.code.items; unknowns = tape.unknowns.items; constants = tape.constants.items } };
}

impl Tape {
    /// The tape of an expression, for its slopes by these unknowns.
    pub fn compile(alloc: Global, expr: &FlatExpr, unknowns: &[Unknown]) -> Result<Tape, AllocError>
        ensures { IfOk result (λ tape. tape ≡ tape_of expr.now unknowns.now) }
    {
        let mut code = Vec::new(alloc);
        compile(expr, &mut code)?;
        let constants = constant_slopes(alloc, expr, unknowns)?;
        let unknowns = Vec::from_slice(alloc, unknowns)?;
        Ok(Tape {
            code,
            unknowns,
            constants,
        })
    }

    /// How many instructions it has.
    pub fn len(&self) -> usize
        ensures { result ≡ length self.now.code }
    {
        self.code.len()
    }

    /// The value of the expression that was compiled, where it has no fault and its tape is one instruction or a number times
    /// an unknown. It takes no room.
    pub fn short_value<V: Values>(&self, values: &V) -> Option<Fix>
        ensures { IfSome result (λ v. IsValue (V.readings values.now) self.now.code v) }
    {
        short_value(self.code.as_slice(), values)
    }

    /// The value of the expression that was compiled, or its first fault. The instructions give it where there is no fault,
    /// and else the expression itself.
    pub fn value<V: Values>(
        &self,
        expr: &FlatExpr,
        values: &V,
        work: &mut Work,
    ) -> Result<Fix, EvalFault>
        requires tape { self.now.code ≡ code_of expr.now }
        requires evaluable { CanEvaluate (V.readings values.now) expr.now }
        requires room { length self.now.code ≤ work.old }
        ensures value { result ≡ number_of (value_of expr.now (V.readings values.now)) }
        ensures room { work.new ≡ work.old }
    {
        self.value_in(expr, values, work.numbers.as_mut_slice())
    }

    /// The same value or fault, with room for a number of each instruction.
    pub fn value_in<V: Values>(
        &self,
        expr: &FlatExpr,
        values: &V,
        numbers: &mut [Fix],
    ) -> Result<Fix, EvalFault>
        requires tape { self.now.code ≡ code_of expr.now }
        requires evaluable { CanEvaluate (V.readings values.now) expr.now }
        requires room { length self.now.code ≤ length numbers.old }
        ensures { result ≡ number_of (value_of expr.now (V.readings values.now)) }
    {
        match run_value(self.code.as_slice(), values, numbers) {
            Ok(number) => Ok(number),
            Err(_) => Ok(units(value(expr, values)?)),
        }
    }

    /// The value of the expression that was compiled, and then its slopes by the unknowns of the tape in order, which `out`
    /// has after the call; or the first fault, and `out` has zeros.
    pub fn slopes<V: Values>(
        &self,
        expr: &FlatExpr,
        values: &V,
        work: &mut Work,
        out: &mut [Fix],
    ) -> Result<Fix, EvalFault>
        requires tape { self.now ≡ tape_of expr.now self.now.unknowns }
        requires evaluable { CanEvaluate (V.readings values.now) expr.now }
        requires room { length self.now.code ≤ work.old }
        requires places { length out.old ≡ length self.now.unknowns }
        ensures answer { slopes_of expr.now self.now.unknowns (V.readings values.now) ≡ and_then (λ v. Ok (v, out.new)) result }
        ensures zeros { OnErr result (out.new ≡ replicate (length out.old) (pos 0)) }
        ensures room { work.new ≡ work.old }
    {
        let unknowns = self.unknowns.as_slice();
        let constants = self.constants.as_slice();
        let code = self.code.as_slice();
        let numbers = work.numbers.as_mut_slice();
        let room = work.slopes.as_mut_slice();
        match run_slopes(unknowns, constants, code, values, numbers, room, out) {
            Ok(number) => Ok(number),
            Err(_) => slopes(expr, unknowns, values, out),
        }
    }
}
