//! What counts next in the budget of a process.
ghost use Rattle.std.specs.Prelude.{◌≡◌, ℕ, None};
ghost use Rattle.cycle_meaning.specs.Statements.{integer_of};
ghost use Rattle.flat_expr.specs.declared.statement.Statement.{out-Statement};
ghost use Rattle.process_laws.specs.Resumed.{Surroundings, AreOf};
ghost use Rattle.process_place.specs.Moves.{Coming, past_end, coming_at, coming};
ghost use Rattle.process_stack.specs.Stacks.{round_of, place_of};
ghost use Rattle.process_ready.specs.Allowed.{CanPerform, EachCan, LeadsOn, LeadRound, LeadAt};
ghost use Rattle.process_control.specs.Coming.{first_of, past_by, coming_by, IsSmall, IsVariable};

use ams_value::Val;
use flat_expr::Statement;
use process_stack::{ProcessStack, body_at, innermost, statement_at};
use statement_values::{Activation, further_value, holds};
use step_data::Refusal;

/// The parameter of a for loop by its number among the variables, with the value of a turn.
#[derive(Clone, Copy)]
pub struct Parameter {
    pub number: u32,
    pub value: i32,
}

/// What counts next.
pub enum Counted<'a> {
    /// The statement begins at which the stack stands.
    Begins(&'a Statement),
    /// A turn of the innermost loop begins, with its parameter, if it's a for loop.
    Turns(Option<Parameter>),
    /// The process goes back to its first statement.
    Restarts,
}

/// What comes behind the last statement inside a statement.
#[derive(Clone, Copy)]
pub enum End {
    /// A further turn of the loop.
    Turn(Option<Parameter>),
    /// The statement is left.
    Left,
}

fn integer(value: Val) -> i32
    ensures { result ≡ integer_of value }
{
    match value {
        Val::Int(number) => number,
        _ => 0,
    }
}

/// What comes behind the last statement inside a statement, whose last value of the parameter is given.
fn end_inside<A: Activation>(at: &A, statement: &Statement, last: i32) -> Result<End, Refusal>
    requires can { CanPerform (A.context at.now) (A.readings at.now) (out-Statement statement.now) }
    requires way { LeadsOn (A.local at.now).variables (out-Statement statement.now) last }
    ensures past { (c : Surroundings) (others : Coming) → past_end (A.context at.now) (A.local at.now) c (out-Statement statement.now) last others ≡ past_by c (A.local at.now) others result }
    ensures variable { IsVariable (A.local at.now) result }
{
    match statement {
        Statement::Loop(condition, _) => match holds(at, condition) {
            Ok(true) => Ok(End::Turn(None)),
            Ok(false) => Ok(End::Left),
            Err(refusal) => Err(refusal),
        },
        Statement::For(number, _, direction, _, _) => {
            match further_value(*direction, integer(at.variable(*number)), last) {
                Some(value) => Ok(End::Turn(Some(Parameter {
                    number: *number,
                    value,
                }))),
                None => Ok(End::Left),
            }
        }
        _ => Ok(End::Left),
    }
}

/// What counts next from a statement of the innermost list on.
fn coming_from<'a, A: Activation>(
    at: &A,
    text: &'a [Statement],
    stack: &mut ProcessStack,
) -> Result<Counted<'a>, Refusal>
    requires round { AreOf text.now (round_of text.now stack.old.frames) }
    requires first { stack.old.first ≡ None }
    requires can { EachCan (A.context at.now) (A.readings at.now) text.now }
    requires way { LeadRound (A.local at.now).variables (round_of text.now stack.old.frames) }
    ensures coming { coming_at (A.context at.now) (A.local at.now) text.now (round_of text.now stack.old.frames) stack.old.next ≡ coming_by text.now (A.local at.now) stack.new result }
    ensures first { stack.new.first ≡ None }
    ensures small { IsSmall (A.local at.now) stack.new result }
{
    let body = body_at(text, stack.frames());
    match statement_at(body, stack.next()) {
        Some(statement) => Ok(Counted::Begins(statement)),
        None => match innermost(text, stack.frames()) {
            Some(round) => match end_inside(at, round.statement, round.frame.last) {
                Ok(End::Turn(parameter)) => {
                    stack.turn();
                    Ok(Counted::Turns(parameter))
                }
                Ok(End::Left) => {
                    stack.leave(round.behind);
                    coming_from(at, text, stack)
                }
                Err(refusal) => Err(refusal),
            },
            None => Ok(Counted::Restarts),
        },
    }
}

fn parameter_of(statement: &Statement, first: i32) -> Option<Parameter>
    ensures { result ≡ first_of (out-Statement statement.now) first }
{
    match statement {
        Statement::For(number, _, _, _, _) => Some(Parameter {
            number: *number,
            value: first,
        }),
        _ => None,
    }
}

/// What counts next at a place in a text: a statement, a turn of a loop, or the return to the first statement.
pub fn coming<'a, A: Activation>(
    at: &A,
    text: &'a [Statement],
    stack: &mut ProcessStack,
) -> Result<Counted<'a>, Refusal>
    requires round { AreOf text.now (round_of text.now stack.old.frames) }
    requires can { EachCan (A.context at.now) (A.readings at.now) text.now }
    requires way { LeadAt (A.local at.now).variables (place_of text.now stack.old) }
    ensures coming { coming (A.context at.now) (A.local at.now) text.now (place_of text.now stack.old) ≡ coming_by text.now (A.local at.now) stack.new result }
    ensures first { stack.new.first ≡ None }
    ensures small { IsSmall (A.local at.now) stack.new result }
{
    let Some(first) = stack.take_first() else {
        return coming_from(at, text, stack);
    };
    let Some(round) = innermost(text, stack.frames()) else {
        return coming_from(at, text, stack);
    };
    match parameter_of(round.statement, first) {
        Some(parameter) => {
            stack.turn();
            Ok(Counted::Turns(Some(parameter)))
        }
        None => Ok(Counted::Restarts),
    }
}
