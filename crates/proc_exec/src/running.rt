//! The run of a process.
ghost use Rattle.std.specs.Prelude.{◌≡◌, OnOk};
ghost use Rattle.cycle_meaning.specs.Processes.{statement_budget};
ghost use Rattle.process_place.specs.Moves.{coming, nothing_left, ended_refused, run_at};
ghost use Rattle.process_stack.specs.Stacks.{place_of};
ghost use Rattle.process_control.specs.Coming.{turned};
ghost use Rattle.process_control.specs.Performing.{Performs};
ghost use Rattle.proc_exec.specs.Running.{StandsReady, HasVariable, counted_at, Ends};

use crate::room::StatementRoom;
use crate::statement::perform;
use ams_value::Val;
use flat_expr::Statement;
use message_codes::PROCESS_BUDGET;
use process_control::{Counted, Parameter, Wait, coming};
use process_effects::Effects;
use process_stack::ProcessStack;
use statement_lists::ListFault;
use statement_values::Activation;
use step_data::Refusal;

/// The most statements in one activation of a process; a turn of a loop and a return to the first statement count one each.
const STATEMENT_BUDGET: u32 = 100_000;

/// Gives the parameter of a loop the value of its turn.
fn begin_turn<E: Effects>(world: &mut E, parameter: Option<Parameter>)
    requires { HasVariable (E.local world.old) parameter }
    ensures local { E.local world.new ≡ turned parameter (E.local world.old) }
    ensures context { E.context world.new ≡ E.context world.old }
{
    if let Some(parameter) = parameter {
        world.set_variable(parameter.number, Val::Int(parameter.value));
    }
}

/// The next one that counts: a statement, a turn of a loop, or the return to the first statement.
fn step<E: Effects>(
    world: &mut E,
    text: &[Statement],
    stack: &mut ProcessStack,
    room: &mut StatementRoom,
) -> Result<Option<Wait>, ListFault>
    requires { StandsReady (E.context world.old) (E.local world.old) text.now stack.old }
    ensures performs { Performs (counted_at (E.context world.old) (E.local world.old) text.now (coming (E.context world.old) (E.local world.old) text.now (place_of text.now stack.old))) text.now (E.local world.old) (E.local world.new) stack.new result }
    ensures ready { OnOk result (StandsReady (E.context world.new) (E.local world.new) text.now stack.new) }
    ensures context { E.context world.new ≡ E.context world.old }
{
    match coming(&*world, text, stack) {
        Ok(Counted::Begins(statement)) => perform(world, text, stack, room, statement),
        Ok(Counted::Turns(parameter)) => {
            begin_turn(world, parameter);
            Ok(None)
        }
        Ok(Counted::Restarts) => {
            stack.restart();
            Ok(None)
        }
        Err(refusal) => Err(ListFault::Refused(refusal)),
    }
}

/// The refusal where no statement is left in the activation.
fn spent<A: Activation>(at: &A, text: &[Statement], stack: &mut ProcessStack) -> Refusal
    requires { StandsReady (A.context at.now) (A.local at.now) text.now stack.old }
    ensures { nothing_left (A.context at.now) (A.local at.now) (coming (A.context at.now) (A.local at.now) text.now (place_of text.now stack.old)) ≡ ended_refused (A.local at.now) result }
{
    match coming(at, text, stack) {
        Ok(Counted::Begins(_) | Counted::Turns(_) | Counted::Restarts) => Refusal {
            code: PROCESS_BUDGET,
            detail: Some(at.process()),
        },
        Err(refusal) => refusal,
    }
}

/// Runs a process from the place of its stack to the next wait, with at most 100,000 statements (IEEE 1076, clauses 10 and 11).
/// Memory is taken only where the stack or a list is longer than any before.
pub fn run<E: Effects>(
    world: &mut E,
    text: &[Statement],
    stack: &mut ProcessStack,
    room: &mut StatementRoom,
) -> Result<Wait, ListFault>
    requires { StandsReady (E.context world.old) (E.local world.old) text.now stack.old }
    ensures ends { Ends (run_at statement_budget (E.context world.old) text.now (E.local world.old) (place_of text.now stack.old)) text.now (E.local world.new) stack.new result }
    ensures ready { OnOk result (StandsReady (E.context world.new) (E.local world.new) text.now stack.new) }
    ensures context { E.context world.new ≡ E.context world.old }
{
    for _used in 0..STATEMENT_BUDGET {
        match step(world, text, stack, room) {
            Ok(None) => {}
            Ok(Some(wait)) => return Ok(wait),
            Err(fault) => return Err(fault),
        }
    }
    Err(ListFault::Refused(spent(&*world, text, stack)))
}
