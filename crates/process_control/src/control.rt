//! The statements that lead a process on.
ghost use Rattle.std.specs.Prelude.{◌≡◌, ◌<◌, ◌+◌, ◌^◌, ℤ, None};
ghost use Rattle.process_laws.specs.Resumed.{AreOf};
ghost use Rattle.flat_expr.specs.declared.statement.Statement.TheOpen.{Statement-F};
ghost use Rattle.process_place.specs.Moves.{moved};
ghost use Rattle.process_stack.specs.Stacks.{round_of};
ghost use Rattle.process_ready.specs.Allowed.{CanPerform};
ghost use Rattle.process_control.specs.Performing.{Performs, IsBegun, HasLoop, IsEntered};

use fix_core::Tick;
use flat_expr::{Alternative, Branch, Direction, FlatExpr, SignalName, Statement};
use process_stack::ProcessStack;
use sqlite_items::Items;
use statement_lists::{ListFault, alternative_number, branch_number};
use statement_values::{Activation, evaluated, holds, loop_range, timeout_of};

/// A wait at which a process stops: its number among the waits of the process, and the time of its timeout.
#[derive(Clone, Copy)]
pub struct Wait {
    pub number: u32,
    pub timeout: Option<Tick>,
}

fn enter(stack: &mut ProcessStack, branch: usize, next: usize) -> Result<Option<Wait>, ListFault>
    ensures { IsEntered stack.old branch next stack.new result }
{
    match stack.enter(branch, next) {
        Ok(()) => Ok(None),
        Err(_) => Err(ListFault::Memory),
    }
}

/// Exit: where the condition holds, the process goes on behind the innermost loop (IEEE 1076, 10.12).
pub fn perform_exit<A: Activation>(
    at: &A,
    text: &[Statement],
    stack: &mut ProcessStack,
    condition: &Option<FlatExpr>,
) -> Result<Option<Wait>, ListFault>
    requires begun { IsBegun text.now stack.old (Statement-F.Exit condition.now) }
    requires can { CanPerform (A.context at.now) (A.readings at.now) (Statement-F.Exit condition.now) }
    ensures performs { Performs (moved (A.context at.now) (A.local at.now) text.now (round_of text.now stack.old.frames) stack.old.next (Statement-F.Exit condition.now)) text.now (A.local at.now) (A.local at.now) stack.new result }
    ensures first { HasLoop text.now stack.new }
{
    match holds(at, condition) {
        Ok(true) => stack.leave_loop(text),
        Ok(false) => stack.advance(),
        Err(refusal) => return Err(ListFault::Refused(refusal)),
    }
    Ok(None)
}

/// Next: where the condition holds, the turn of the innermost loop ends (IEEE 1076, 10.11).
pub fn perform_next<A: Activation>(
    at: &A,
    text: &[Statement],
    stack: &mut ProcessStack,
    condition: &Option<FlatExpr>,
) -> Result<Option<Wait>, ListFault>
    requires begun { IsBegun text.now stack.old (Statement-F.Next condition.now) }
    requires can { CanPerform (A.context at.now) (A.readings at.now) (Statement-F.Next condition.now) }
    ensures performs { Performs (moved (A.context at.now) (A.local at.now) text.now (round_of text.now stack.old.frames) stack.old.next (Statement-F.Next condition.now)) text.now (A.local at.now) (A.local at.now) stack.new result }
    ensures first { HasLoop text.now stack.new }
{
    match holds(at, condition) {
        Ok(true) => stack.end_turn(text),
        Ok(false) => stack.advance(),
        Err(refusal) => return Err(ListFault::Refused(refusal)),
    }
    Ok(None)
}

/// If: the process goes into the branch that is taken (IEEE 1076, 10.8).
pub fn perform_if<A: Activation>(
    at: &A,
    text: &[Statement],
    stack: &mut ProcessStack,
    branches: &Items<Branch>,
    last: &Items<Statement>,
) -> Result<Option<Wait>, ListFault>
    requires begun { IsBegun text.now stack.old (Statement-F.If branches.now last.now) }
    requires can { CanPerform (A.context at.now) (A.readings at.now) (Statement-F.If branches.now last.now) }
    ensures performs { Performs (moved (A.context at.now) (A.local at.now) text.now (round_of text.now stack.old.frames) stack.old.next (Statement-F.If branches.now last.now)) text.now (A.local at.now) (A.local at.now) stack.new result }
    ensures first { HasLoop text.now stack.new }
{
    match branch_number(at, branches.as_slice()) {
        Ok(branch) => enter(stack, branch, 0),
        Err(refusal) => Err(ListFault::Refused(refusal)),
    }
}

/// Case: the process goes into the alternative that is taken (IEEE 1076, 10.9).
pub fn perform_case<A: Activation>(
    at: &A,
    text: &[Statement],
    stack: &mut ProcessStack,
    expression: &FlatExpr,
    alternatives: &Items<Alternative>,
) -> Result<Option<Wait>, ListFault>
    requires begun { IsBegun text.now stack.old (Statement-F.Case expression.now alternatives.now) }
    requires can { CanPerform (A.context at.now) (A.readings at.now) (Statement-F.Case expression.now alternatives.now) }
    ensures performs { Performs (moved (A.context at.now) (A.local at.now) text.now (round_of text.now stack.old.frames) stack.old.next (Statement-F.Case expression.now alternatives.now)) text.now (A.local at.now) (A.local at.now) stack.new result }
    ensures first { HasLoop text.now stack.new }
{
    match evaluated(at, expression) {
        Ok(value) => match alternative_number(alternatives.as_slice(), value) {
            Some(number) => enter(stack, number, 0),
            None => {
                stack.advance();
                Ok(None)
            }
        },
        Err(refusal) => Err(ListFault::Refused(refusal)),
    }
}

/// Loop: the process goes to the end of its body, where its condition is asked (IEEE 1076, 10.10).
pub fn perform_loop<A: Activation>(
    at: &A,
    text: &[Statement],
    stack: &mut ProcessStack,
    condition: &Option<FlatExpr>,
    body: &Items<Statement>,
) -> Result<Option<Wait>, ListFault>
    requires begun { IsBegun text.now stack.old (Statement-F.Loop condition.now body.now) }
    requires can { CanPerform (A.context at.now) (A.readings at.now) (Statement-F.Loop condition.now body.now) }
    ensures performs { Performs (moved (A.context at.now) (A.local at.now) text.now (round_of text.now stack.old.frames) stack.old.next (Statement-F.Loop condition.now body.now)) text.now (A.local at.now) (A.local at.now) stack.new result }
    ensures first { HasLoop text.now stack.new }
{
    enter(stack, 0, body.len())
}

/// For: the process goes before the first turn, unless the range is empty (IEEE 1076, 10.10).
pub fn perform_for<A: Activation>(
    at: &A,
    text: &[Statement],
    stack: &mut ProcessStack,
    number: u32,
    left: &FlatExpr,
    direction: Direction,
    right: &FlatExpr,
    body: &Items<Statement>,
) -> Result<Option<Wait>, ListFault>
    requires begun { IsBegun text.now stack.old (Statement-F.For number left.now direction right.now body.now) }
    requires can { CanPerform (A.context at.now) (A.readings at.now) (Statement-F.For number left.now direction right.now body.now) }
    ensures performs { Performs (moved (A.context at.now) (A.local at.now) text.now (round_of text.now stack.old.frames) stack.old.next (Statement-F.For number left.now direction right.now body.now)) text.now (A.local at.now) (A.local at.now) stack.new result }
    ensures first { HasLoop text.now stack.new }
{
    match loop_range(at, left, direction, right) {
        Ok(Some(range)) => match stack.begin_loop(range.first, range.last) {
            Ok(()) => Ok(None),
            Err(_) => Err(ListFault::Memory),
        },
        Ok(None) => {
            stack.advance();
            Ok(None)
        }
        Err(refusal) => Err(ListFault::Refused(refusal)),
    }
}

/// Wait: the process stops behind it (IEEE 1076, 10.2).
pub fn perform_wait<A: Activation>(
    at: &A,
    text: &[Statement],
    stack: &mut ProcessStack,
    number: u32,
    on: &Items<SignalName>,
    condition: &Option<FlatExpr>,
    timeout: &Option<FlatExpr>,
) -> Result<Option<Wait>, ListFault>
    requires begun { IsBegun text.now stack.old (Statement-F.Wait number on.now condition.now timeout.now) }
    requires can { CanPerform (A.context at.now) (A.readings at.now) (Statement-F.Wait number on.now condition.now timeout.now) }
    ensures performs { Performs (moved (A.context at.now) (A.local at.now) text.now (round_of text.now stack.old.frames) stack.old.next (Statement-F.Wait number on.now condition.now timeout.now)) text.now (A.local at.now) (A.local at.now) stack.new result }
    ensures first { HasLoop text.now stack.new }
{
    match timeout_of(at, timeout) {
        Ok(timeout) => {
            stack.advance();
            Ok(Some(Wait { number, timeout }))
        }
        Err(refusal) => Err(ListFault::Refused(refusal)),
    }
}
