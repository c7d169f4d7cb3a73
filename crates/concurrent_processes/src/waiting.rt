//! A process that does one statement and then waits (IEEE 1076, 11.3).
ghost use Rattle.std.specs.Prelude.{◌≡◌, [], ◌∷◌, IfOk};
ghost use Rattle.elab_meaning.specs.Notes.{no_notes};
ghost use Rattle.unit_meaning.specs.Processes as spec;

use flat_design::{PathStep, Process, WaitPlace};
use flat_expr::{SignalName, Statement};
use held_value::Held;
use sqlite_items::Items;
use std::alloc::{AllocError, Global};

/// The number of the only wait.
const ONLY_WAIT: u32 = 0;

/// The wait stands behind the one statement; a wait has no branches.
const BEHIND_THE_STATEMENT: PathStep = PathStep {
    statement: 1,
    branch: 0,
};

/// The statement, and the wait for the signals.
fn with_wait(
    alloc: Global,
    signals: Items<SignalName>,
    statement: Statement,
) -> Result<Items<Statement>, AllocError>
    ensures { IfOk result (λ all. all ≡ spec.final_wait (spec.no_draft no_notes) (statement ∷ []) signals) }
{
    let mut all = Items::new(alloc);
    all.push(statement)?;
    all.push(Statement::Wait(ONLY_WAIT, signals, None, None))?;
    Ok(all)
}

/// Where the wait stands.
fn wait_places(alloc: Global) -> Result<Items<WaitPlace>, AllocError>
    ensures { IfOk result (λ all. all ≡ record { path = record { statement = 1; branch = 0 } ∷ []; parameters = [] } ∷ []) }
{
    let mut path = Items::new(alloc);
    path.push(BEHIND_THE_STATEMENT)?;
    let parameters = Items::new(alloc);
    let mut all = Items::new(alloc);
    all.push(WaitPlace { path, parameters })?;
    Ok(all)
}

/// The process that drives these signals, does the statement and waits for the signals.
pub fn waiting_process(
    alloc: Global,
    drivers: Items<u32>,
    signals: Items<SignalName>,
    statement: Statement,
) -> Result<Process, AllocError>
    ensures { IfOk result (λ made. made ≡ spec.ending (record { notes = no_notes; variables = []; drivers = drivers; waits = [] }) signals (statement ∷ [])) }
{
    let statements = Held::new(with_wait(alloc, signals, statement)?);
    let waits = wait_places(alloc)?;
    Ok(Process {
        variables: Items::new(alloc),
        statements: statements.into_inner(),
        drivers,
        waits,
    })
}
