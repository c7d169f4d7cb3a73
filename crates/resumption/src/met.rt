//! Whether the wait of a process is met.
ghost use Rattle.std.specs.Prelude.{◌≡◌, slice_index_or, []};
ghost use Rattle.std.specs.List.{list_any};
ghost use Rattle.std.specs.Option.{option_copied, ForSome};
ghost use Rattle.flat_expr.specs.declared.statement.Statement.{out-Statement};
ghost use Rattle.design_meaning.specs.Readings.{seen_of};
ghost use Rattle.expr_eval.specs.Condition.{CanEvaluate};
ghost use Rattle.cycle_meaning.specs.World.{holds};
ghost use Rattle.cycle_meaning.specs.Cycles.{is_timed_out, condition_met};
ghost use Rattle.kernel_world.specs.Acting as acting;
ghost use Rattle.resumption.specs.Sleeps.{met_at, met, waiting_met};
ghost use Rattle.resumption.specs.Waits.{waiting_stated, waiting_found, rows_of, AreWaits, contexts_of, IsThere};
ghost use Rattle.resumption.specs.Waiting.{context_of, local_of, readings_of};

use crate::asleep::Asleep;
use crate::sleeper::Sleeper;
use crate::waits::Waits;
use expr_eval::Values;
use fix_core::Tick;
use flat_expr::{FlatExpr, SignalName, Statement};
use kernel_world::World;
use statement_values::holds;
use step_data::Refusal;

/// Whether a timeout is due.
fn is_timed_out(now: Tick, timeout: Option<Tick>) -> bool
    ensures { result ≡ is_timed_out now timeout }
{
    match timeout {
        Some(at) => now == at,
        None => false,
    }
}

/// Whether a signal of a sensitivity set had an event.
fn had_event(at: &Sleeper, on: &[SignalName]) -> bool
    ensures { result ≡ list_any (λ i. (seen_of (readings_of at.now) i).event) on.now }
{
    on.iter().any(|name| at.event(*name))
}

/// Whether a signal of a sensitivity set had an event, and the condition holds.
fn condition_met(
    at: &Sleeper,
    on: &[SignalName],
    condition: &Option<FlatExpr>,
) -> Result<bool, Refusal>
    requires { ForSome condition.now (λ e. CanEvaluate (readings_of at.now) e) }
    ensures { result ≡ condition_met (list_any (λ i. (seen_of (readings_of at.now) i).event) on.now) (holds (context_of at.now) (local_of at.now) condition.now) }
{
    if had_event(at, on) {
        holds(at, condition)
    } else {
        Ok(false)
    }
}

/// The same of a wait statement.
fn statement_met(at: &Sleeper, statement: &Statement) -> Result<bool, Refusal>
    requires { ForSome (waiting_stated (out-Statement statement.now)).1 (λ e. CanEvaluate (readings_of at.now) e) }
    ensures { result ≡ waiting_met (context_of at.now) (local_of at.now) (waiting_stated (out-Statement statement.now)) }
{
    match statement {
        Statement::Wait(_, on, condition, _) => condition_met(at, on.as_slice(), condition),
        _ => Ok(false),
    }
}

/// Whether a wait is met.
fn met(at: &Sleeper, wait: Option<&Statement>, timeout: Option<Tick>) -> Result<bool, Refusal>
    requires { ForSome (waiting_found (option_copied wait)).1 (λ e. CanEvaluate (readings_of at.now) e) }
    ensures { result ≡ met_at (context_of at.now) (local_of at.now) timeout (waiting_found (option_copied wait.entry)) }
{
    if is_timed_out(at.time(), timeout) {
        return Ok(true);
    }
    match wait {
        Some(statement) => statement_met(at, statement),
        None => Ok(false),
    }
}

/// Whether the wait of the process with this number is met: at its timeout, or where a signal of its sensitivity set had an
/// event and its condition is TRUE. A condition that has a fault is refused.
pub fn is_met<S: Asleep>(
    waits: &Waits,
    world: &World,
    process: u32,
    sleeper: &S,
) -> Result<bool, Refusal>
    requires waits { AreWaits (acting.context_of world.now).objects.processes waits.now }
    requires there { IsThere world.now process (S.asleep sleeper.now) }
    ensures { result ≡ met (contexts_of world.now process) (acting.world_of world.now) (slice_index_or (rows_of waits.now.rows.items) process []) (S.asleep sleeper.now) }
{
    let at = Sleeper {
        world,
        process,
        variables: sleeper.variables(),
    };
    let wait = waits.wait(process as usize, sleeper.wait());
    met(&at, wait, sleeper.timeout())
}
