//! An expression as instructions.
ghost use Rattle.std.specs.Prelude.{◌≡◌, ◌++◌, length, pos, IfOk};
ghost use Rattle.ams_value.specs.Ranges.{most_exponent};
ghost use Rattle.tape_code.specs.Code.{code_of, compiled, literal_instruction as literal_instruction_of, unary_instruction as unary_instruction_of, binary_instruction as binary_instruction_of, power_instruction as power_instruction_of, conversion, is_power as is_power_of, real_function_of};

use crate::instruction::{Instruction, RealFunction, RealOperator};
use ams_value::{BinaryOperator, UnaryOperator, Val, real_from_integer};
use flat_expr::{FlatExpr, Function};
use std::alloc::AllocError;

/// The greatest exponent of a power.
const MOST_EXPONENT: i32 = 64;

fn literal_instruction(literal: Val) -> Instruction
    ensures { result ≡ literal_instruction_of literal }
{
    match literal {
        Val::Real(number) => Instruction::Literal(number),
        _ => Instruction::Other,
    }
}

fn unary_instruction(op: UnaryOperator) -> Instruction
    ensures { result ≡ unary_instruction_of op }
{
    match op {
        UnaryOperator::Plus => Instruction::Function(RealFunction::Plus),
        UnaryOperator::Minus => Instruction::Function(RealFunction::Minus),
        UnaryOperator::Abs => Instruction::Function(RealFunction::Absolute),
        UnaryOperator::Not => Instruction::Other,
    }
}

/// Of an operator whose right operand has so many instructions.
fn binary_instruction(op: BinaryOperator, right: usize) -> Instruction
    ensures { result ≡ binary_instruction_of op right }
{
    match op {
        BinaryOperator::Add => Instruction::Operator(RealOperator::Add, right),
        BinaryOperator::Subtract => Instruction::Operator(RealOperator::Subtract, right),
        BinaryOperator::Multiply => Instruction::Operator(RealOperator::Multiply, right),
        BinaryOperator::Divide => Instruction::Operator(RealOperator::Divide, right),
        _ => Instruction::Other,
    }
}

/// The integer, where the expression is a literal of INTEGER.
fn integer_of(expr: &FlatExpr) -> Option<i32>
    ensures { result ≡ (compiled expr.now).integer }
{
    match expr {
        FlatExpr::Literal(Val::Int(n)) => Some(*n),
        _ => None,
    }
}

fn power_instruction(exponent: Option<i32>) -> Instruction
    ensures { result ≡ power_instruction_of exponent }
{
    match exponent {
        Some(n) if 0 <= n && n <= MOST_EXPONENT => Instruction::Power(n.unsigned_abs()),
        _ => Instruction::Other,
    }
}

fn is_power(op: BinaryOperator) -> bool
    ensures { result ≡ is_power_of op }
{
    matches!(op, BinaryOperator::Power)
}

/// Of a conversion of an integer.
fn conversion_instruction(name: Function, integer: Option<i32>) -> Instruction
    ensures { result ≡ conversion name integer }
{
    match (name, integer) {
        (Function::Real, Some(n)) => Instruction::Literal(real_from_integer(n)),
        _ => Instruction::Other,
    }
}

/// The function that a call of this one is, and none where it is a conversion.
fn real_function(function: Function) -> Option<RealFunction>
    ensures { result ≡ real_function_of function }
{
    match function {
        Function::Exp => Some(RealFunction::Exp),
        Function::Sin => Some(RealFunction::Sin),
        Function::Cos => Some(RealFunction::Cos),
        Function::Sqrt => Some(RealFunction::Sqrt),
        Function::Real | Function::Integer => None,
    }
}

/// Appends the instructions of an expression.
pub fn compile(expr: &FlatExpr, code: &mut Vec<Instruction>) -> Result<(), AllocError>
    ensures { IfOk result (λ _. code.new.items ≡ code.old.items ++ code_of expr.now) }
{
    match expr {
        FlatExpr::Literal(literal) => code.push(literal_instruction(*literal))?,
        FlatExpr::Signal(name, _) => code.push(Instruction::Signal(*name))?,
        FlatExpr::Unknown(unknown) => code.push(Instruction::Unknown(*unknown))?,
        FlatExpr::NowReal => code.push(Instruction::Now)?,
        FlatExpr::Unary(op, _, a) => {
            compile(a.get(), code)?;
            code.push(unary_instruction(*op))?;
        }
        FlatExpr::Binary(op, _, a, b) => {
            compile(a.get(), code)?;
            if is_power(*op) {
                code.push(power_instruction(integer_of(b.get())))?;
            } else {
                let start = code.len();
                compile(b.get(), code)?;
                let right = code.len() - start;
                code.push(binary_instruction(*op, right))?;
            }
        }
        FlatExpr::Call(name, a) => match real_function(*name) {
            Some(function) => {
                compile(a.get(), code)?;
                code.push(Instruction::Function(function))?;
            }
            None => code.push(conversion_instruction(*name, integer_of(a.get())))?,
        },
        _ => code.push(Instruction::Other)?,
    }
    Ok(())
}
