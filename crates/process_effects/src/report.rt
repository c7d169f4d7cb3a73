//! Assertions and reports.
ghost use Rattle.std.specs.Prelude.{◌≡◌};
ghost use Rattle.ams_value.specs.Values.{is_true};
ghost use Rattle.flat_expr.specs.declared.statement.Statement.TheOpen.{Statement-F};
ghost use Rattle.cycle_meaning.specs.World.{evaluated};
ghost use Rattle.cycle_meaning.specs.Statements.{number_of_severity};
ghost use Rattle.process_place.specs.Moves.{goes_to, or_refused, reported_at, asserted_at};
ghost use Rattle.process_ready.specs.Allowed.{CanPerform};
ghost use Rattle.process_effects.specs.Effects.{Leads, is_failure};

use crate::effects::Effects;
use flat_expr::{FlatExpr, Severity};
use message_codes::FAILURE;
use sqlite_items::Items;
use statement_lists::ListFault;
use statement_values::{Activation, truth};
use step_data::Refusal;

fn number_of_severity(severity: Severity) -> u8
    ensures { result ≡ number_of_severity severity }
{
    match severity {
        Severity::Note => 0,
        Severity::Warning => 1,
        Severity::Error => 2,
        Severity::Failure => 3,
    }
}

fn is_failure(severity: Severity) -> bool
    ensures { result ≡ is_failure severity }
{
    match severity {
        Severity::Failure => true,
        _ => false,
    }
}

/// A report (IEEE 1076, 10.4). One of severity FAILURE is given, and then refuses the process.
pub fn perform_report<E: Effects>(
    world: &mut E,
    text: &Items<u8>,
    severity: Severity,
) -> Result<(), ListFault>
    ensures leads { Leads (λ p. reported_at (E.context world.old) severity text.now p (E.local world.old)) (E.local world.old) (E.local world.new) result }
    ensures context { E.context world.new ≡ E.context world.old }
{
    let Ok(()) = world.report(number_of_severity(severity), text.as_slice()) else {
        return Err(ListFault::Memory);
    };
    if is_failure(severity) {
        return Err(ListFault::Refused(Refusal {
            code: FAILURE,
            detail: Some(world.process()),
        }));
    }
    Ok(())
}

/// An assertion (IEEE 1076, 10.3): a report where the condition doesn't hold.
pub fn perform_assert<E: Effects>(
    world: &mut E,
    condition: &FlatExpr,
    text: &Items<u8>,
    severity: Severity,
) -> Result<(), ListFault>
    requires { CanPerform (E.context world.old) (E.readings world.old) (Statement-F.Assert condition.now text.now severity) }
    ensures leads { Leads (λ p. or_refused (E.local world.old) (λ v. asserted_at (is_true v) (reported_at (E.context world.old) severity text.now p (E.local world.old)) p (E.local world.old)) (evaluated (E.context world.old) (E.local world.old) condition.now)) (E.local world.old) (E.local world.new) result }
    ensures context { E.context world.new ≡ E.context world.old }
{
    match truth(&*world, condition) {
        Ok(true) => Ok(()),
        Ok(false) => perform_report(world, text, severity),
        Err(refusal) => Err(ListFault::Refused(refusal)),
    }
}
