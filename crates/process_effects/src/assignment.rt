//! Assignments to signals and variables.
ghost use Rattle.std.specs.Prelude.{◌≡◌};
ghost use Rattle.flat_expr.specs.declared.statement.Statement.TheOpen.{Statement-F};
ghost use Rattle.cycle_meaning.specs.Statements.{signal_assignment, variable_assignment};
ghost use Rattle.process_place.specs.ProcessPlace.{ProcessPlace};
ghost use Rattle.process_place.specs.Moves.{goes_to, or_refused};
ghost use Rattle.process_ready.specs.Allowed.{CanPerform};
ghost use Rattle.process_effects.specs.Effects.{Leads};

use crate::effects::Effects;
use flat_expr::{Constraint, DelayMechanism, FlatExpr, WaveElement};
use sqlite_items::Items;
use statement_lists::{ListFault, delay_kind, rejection, transactions};
use statement_values::{Subtypes, assigned_value, limit_of};
use step_data::Trans;

/// A signal assignment (IEEE 1076, 10.5.2): the new transactions are made in `found`, and its driver takes them.
pub fn assign_signal<E: Effects>(
    world: &mut E,
    signal: u32,
    written: &Constraint,
    mechanism: &DelayMechanism,
    waveform: &Items<WaveElement>,
    found: &mut Vec<Trans>,
) -> Result<(), ListFault>
    requires { CanPerform (E.context world.old) (E.readings world.old) (Statement-F.SignalAssignment signal written.now mechanism.now waveform.now) }
    ensures leads { Leads (λ p. or_refused (E.local world.old) (goes_to p) (signal_assignment (E.context world.old) (E.local world.old) signal written.now mechanism.now waveform.now)) (E.local world.old) (E.local world.new) result }
    ensures context { E.context world.new ≡ E.context world.old }
{
    let limit = match limit_of(&*world, mechanism) {
        Ok(limit) => limit,
        Err(refusal) => return Err(ListFault::Refused(refusal)),
    };
    let subtypes = Subtypes {
        written: *written,
        declared: world.constraint(signal),
    };
    match transactions(&*world, waveform.as_slice(), &subtypes, limit, found) {
        Ok(()) => {}
        Err(fault) => return Err(fault),
    }
    let reject = rejection(world.time(), limit, found.as_slice());
    match world.assign(signal, delay_kind(mechanism), reject, found.as_slice()) {
        Ok(()) => Ok(()),
        Err(_) => Err(ListFault::Memory),
    }
}

/// A variable assignment (IEEE 1076, 10.6.2).
pub fn assign_variable<E: Effects>(
    world: &mut E,
    variable: u32,
    written: &Constraint,
    expression: &FlatExpr,
) -> Result<(), ListFault>
    requires { CanPerform (E.context world.old) (E.readings world.old) (Statement-F.VariableAssignment variable written.now expression.now) }
    ensures leads { Leads (λ p. or_refused (E.local world.old) (goes_to p) (variable_assignment (E.context world.old) (E.local world.old) variable written.now expression.now)) (E.local world.old) (E.local world.new) result }
    ensures context { E.context world.new ≡ E.context world.old }
{
    match assigned_value(&*world, written, expression) {
        Ok(value) => {
            world.set_variable(variable, value);
            Ok(())
        }
        Err(refusal) => Err(ListFault::Refused(refusal)),
    }
}
