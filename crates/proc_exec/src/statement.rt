//! A statement of a process.
ghost use Rattle.std.specs.Prelude.{◌≡◌, true, ◌<◌, ◌+◌, ◌^◌, None};
ghost use Rattle.flat_expr.specs.declared.statement.Statement.{out-Statement};
ghost use Rattle.process_place.specs.Moves.{moved};
ghost use Rattle.process_ready.specs.Allowed.{CanPerform};
ghost use Rattle.process_stack.specs.Stacks.{round_of};
ghost use Rattle.process_control.specs.Performing.{Performs, IsBegun, HasLoop};
ghost use Rattle.process_effects.specs.Effects.{Leads};
ghost use Rattle.proc_exec.specs.Performing.{is_leading, changed, IsPassed};

use crate::room::StatementRoom;
use flat_expr::Statement;
use process_control::{
    Wait, perform_case, perform_exit, perform_for, perform_if, perform_loop, perform_next,
    perform_wait,
};
use process_effects::{
    Effects, assign_signal, assign_variable, perform_assert, perform_break, perform_report,
};
use process_stack::ProcessStack;
use statement_lists::ListFault;
use statement_values::Activation;

/// Whether a statement leads the process on; the others change the world or its variables.
fn is_leading(statement: &Statement) -> bool
    ensures { result ≡ is_leading (out-Statement statement.now) }
{
    match statement {
        Statement::If(_, _) => true,
        Statement::Case(_, _) => true,
        Statement::Loop(_, _) => true,
        Statement::For(_, _, _, _, _) => true,
        Statement::Exit(_) => true,
        Statement::Next(_) => true,
        Statement::Wait(_, _, _, _) => true,
        _ => false,
    }
}

/// A statement that leads the process on.
fn lead<A: Activation>(
    at: &A,
    text: &[Statement],
    stack: &mut ProcessStack,
    statement: &Statement,
) -> Result<Option<Wait>, ListFault>
    requires begun { IsBegun text.now stack.old (out-Statement statement.now) }
    requires can { CanPerform (A.context at.now) (A.readings at.now) (out-Statement statement.now) }
    requires leading { is_leading (out-Statement statement.now) ≡ true }
    ensures performs { Performs (moved (A.context at.now) (A.local at.now) text.now (round_of text.now stack.old.frames) stack.old.next (out-Statement statement.now)) text.now (A.local at.now) (A.local at.now) stack.new result }
    ensures first { HasLoop text.now stack.new }
{
    match statement {
        Statement::If(branches, last) => perform_if(at, text, stack, branches, last),
        Statement::Case(value, alternatives) => perform_case(at, text, stack, value, alternatives),
        Statement::Loop(condition, body) => perform_loop(at, text, stack, condition, body),
        Statement::For(number, left, direction, right, body) => {
            perform_for(at, text, stack, *number, left, *direction, right, body)
        }
        Statement::Exit(condition) => perform_exit(at, text, stack, condition),
        Statement::Next(condition) => perform_next(at, text, stack, condition),
        Statement::Wait(number, on, condition, timeout) => {
            perform_wait(at, text, stack, *number, on, condition, timeout)
        }
        _ => Ok(None),
    }
}

/// What another statement changes.
fn change<E: Effects>(
    world: &mut E,
    room: &mut StatementRoom,
    statement: &Statement,
) -> Result<(), ListFault>
    requires { CanPerform (E.context world.old) (E.readings world.old) (out-Statement statement.now) }
    ensures leads { Leads (changed (E.context world.old) (E.local world.old) (out-Statement statement.now)) (E.local world.old) (E.local world.new) result }
    ensures context { E.context world.new ≡ E.context world.old }
{
    match statement {
        Statement::SignalAssignment(signal, written, mechanism, waveform) => {
            let found = &mut room.transactions;
            assign_signal(world, *signal, written, mechanism, waveform, found)
        }
        Statement::VariableAssignment(variable, written, expression) => {
            assign_variable(world, *variable, written, expression)
        }
        Statement::Assert(condition, text, severity) => {
            perform_assert(world, condition, text, *severity)
        }
        Statement::Report(text, severity) => perform_report(world, text, *severity),
        Statement::Break(elements, condition) => {
            perform_break(world, elements, condition, &mut room.elements)
        }
        _ => Ok(()),
    }
}

/// Goes behind a statement that was performed.
fn pass(stack: &mut ProcessStack, outcome: Result<(), ListFault>) -> Result<Option<Wait>, ListFault>
    requires { stack.old.next + 1 < 2 ^ 64 }
    ensures { IsPassed outcome stack.old stack.new result }
{
    match outcome {
        Ok(()) => {
            stack.advance();
            Ok(None)
        }
        Err(fault) => Err(fault),
    }
}

/// The statement at which the stack stands.
pub(crate) fn perform<E: Effects>(
    world: &mut E,
    text: &[Statement],
    stack: &mut ProcessStack,
    room: &mut StatementRoom,
    statement: &Statement,
) -> Result<Option<Wait>, ListFault>
    requires begun { IsBegun text.now stack.old (out-Statement statement.now) }
    requires can { CanPerform (E.context world.old) (E.readings world.old) (out-Statement statement.now) }
    ensures performs { Performs (moved (E.context world.old) (E.local world.old) text.now (round_of text.now stack.old.frames) stack.old.next (out-Statement statement.now)) text.now (E.local world.old) (E.local world.new) stack.new result }
    ensures first { HasLoop text.now stack.new }
    ensures context { E.context world.new ≡ E.context world.old }
{
    if is_leading(statement) {
        return lead(&*world, text, stack, statement);
    }
    let outcome = change(world, room, statement);
    pass(stack, outcome)
}
