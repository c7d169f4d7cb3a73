//! The process of what was read.
ghost use Rattle.std.specs.Prelude.{◌≡◌, ◌++◌, ◌∷◌, [], None, IfOk, OnOk};
ghost use Rattle.elab_meaning.specs.declared.part.Part.TheVariants.{Kept};
ghost use Rattle.elab_meaning.specs.Parts as parts;
ghost use Rattle.flat_expr.specs.declared.statement.Statement.TheVariants as statement;
ghost use Rattle.unit_meaning.specs.Cases.{beside};
ghost use Rattle.unit_meaning.specs.Processes as spec;
ghost use Rattle.process_declarations.specs.Parts.{fine_part};

use elab_meaning::Part;
use flat_design::{PathStep, Process, WaitPlace};
use flat_expr::{SignalName, Statement};
use held_value::Held;
use process_declarations::DeclarativePart;
use simple_types::number_of;
use sqlite_items::Items;
use statement_parts::both;
use std::alloc::{AllocError, Global};
use std::mem;
use unit_meaning::Draft;

/// Where the last wait stands, behind so many statements.
fn last_place(alloc: Global, count: usize) -> Result<WaitPlace, AllocError>
    ensures { IfOk result (λ place. place ≡ record { path = record { statement = count; branch = 0 } ∷ []; parameters = [] }) }
{
    let mut path = Items::new(alloc);
    path.push(PathStep {
        statement: number_of(count)?,
        branch: 0,
    })?;
    Ok(WaitPlace {
        path,
        parameters: Items::new(alloc),
    })
}

/// The statements with the last wait, which has this number.
fn with_last_wait(
    number: u32,
    signals: Items<SignalName>,
    statements: Items<Statement>,
) -> Result<Items<Statement>, AllocError>
    ensures { IfOk result (λ all. all ≡ statements ++ statement.Wait number signals None None ∷ []) }
{
    let mut all = statements;
    all.push(Statement::Wait(number, signals, None, None))?;
    Ok(all)
}

/// A process without a last wait, which takes the lists of the draft.
fn endless(alloc: Global, draft: &mut Draft, statements: Items<Statement>) -> Process
    ensures process { result ≡ spec.endless draft.old statements }
    ensures notes { draft.new.notes ≡ draft.old.notes }
{
    Process {
        variables: mem::replace(&mut draft.variables, Items::new(alloc)),
        statements,
        drivers: mem::replace(&mut draft.drivers, Items::new(alloc)),
        waits: mem::replace(&mut draft.waits, Items::new(alloc)),
    }
}

/// A process that waits for these signals behind its last statement (IEEE 1076, 11.3).
fn ending(
    alloc: Global,
    draft: &mut Draft,
    signals: Items<SignalName>,
    statements: Items<Statement>,
) -> Result<Process, AllocError>
    ensures process { IfOk result (λ process. process ≡ spec.ending draft.old signals statements) }
    ensures notes { OnOk result (draft.new.notes ≡ draft.old.notes) }
{
    let count = statements.len();
    let statements = Held::new(statements);
    let number = number_of(draft.waits.len())?;
    draft.waits.push(last_place(alloc, count)?)?;
    let all = with_last_wait(number, signals, statements.into_inner())?;
    Ok(endless(alloc, draft, all))
}

fn made_process(
    alloc: Global,
    draft: &mut Draft,
    signals: Option<Items<SignalName>>,
    statements: Items<Statement>,
) -> Result<Process, AllocError>
    ensures process { IfOk result (λ process. Kept process ≡ spec.made_process draft.old signals statements) }
    ensures notes { OnOk result (draft.new.notes ≡ draft.old.notes) }
{
    match signals {
        Some(signals) => ending(alloc, draft, signals, statements),
        None => Ok(endless(alloc, draft, statements)),
    }
}

fn process_of_parts(
    alloc: Global,
    draft: &mut Draft,
    signals: Part<Option<Items<SignalName>>>,
    statements: Part<Items<Statement>>,
) -> Result<Part<Process>, AllocError>
    ensures found { IfOk result (λ made. made ≡ parts.both (spec.made_process draft.old) signals statements) }
    ensures notes { OnOk result (draft.new.notes ≡ draft.old.notes) }
{
    match both(signals, statements) {
        Part::Kept((signals, statements)) => {
            let process = made_process(alloc, draft, signals, statements)?;
            Ok(Part::Kept(process))
        }
        Part::Wrong => Ok(Part::Wrong),
        Part::Hidden => Ok(Part::Hidden),
    }
}

/// The process of its parts, where they and its declarations keep the rules. It takes the lists of the draft.
pub fn process_part(
    alloc: Global,
    read: &mut DeclarativePart,
    signals: Part<Option<Items<SignalName>>>,
    statements: Part<Items<Statement>>,
) -> Result<Part<Process>, AllocError>
    ensures found { IfOk result (λ made. made ≡ beside (fine_part read.old.is_fine) (parts.both (spec.made_process read.old.draft) signals statements)) }
    ensures notes { OnOk result (read.new.draft.notes ≡ read.old.draft.notes) }
{
    if read.is_fine {
        process_of_parts(alloc, &mut read.draft, signals, statements)
    } else {
        drop(signals);
        drop(statements);
        Ok(Part::Hidden)
    }
}
