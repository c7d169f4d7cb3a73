//! The text of the process.
ghost use Rattle.std.specs.Prelude.{◌≡◌, IfOk};
ghost use Rattle.process_cases.specs.Cases.{waits_once, says, waits_for, spins, case_text};

use ams_value::Val;
use flat_expr::{FlatExpr, Severity, Statement};
use sqlite_items::Items;
use std::alloc::{AllocError, Global};

fn waits_once(alloc: Global) -> Result<Statement, AllocError>
    ensures { IfOk result (λ made. made ≡ waits_once) }
{
    let mut body = Items::new(alloc);
    body.push(Statement::Wait(0, Items::new(alloc), None, None))?;
    body.push(Statement::Exit(None))?;
    Ok(Statement::Loop(None, body))
}

fn says(alloc: Global) -> Result<Statement, AllocError>
    ensures { IfOk result (λ made. made ≡ says) }
{
    let mut text = Items::new(alloc);
    text.push(b'a')?;
    Ok(Statement::Report(text, Severity::Note))
}

fn waits_for(alloc: Global) -> Statement
    ensures { result ≡ waits_for }
{
    let delay = FlatExpr::Literal(Val::Time(5));
    Statement::Wait(1, Items::new(alloc), None, Some(delay))
}

fn spins(alloc: Global) -> Result<Statement, AllocError>
    ensures { IfOk result (λ made. made ≡ spins) }
{
    let mut body = Items::new(alloc);
    body.push(Statement::Null)?;
    Ok(Statement::Loop(None, body))
}

pub fn case_text(alloc: Global) -> Result<Items<Statement>, AllocError>
    ensures { IfOk result (λ made. made ≡ case_text) }
{
    let mut text = Items::new(alloc);
    text.push(waits_once(alloc)?)?;
    text.push(says(alloc)?)?;
    text.push(waits_for(alloc))?;
    text.push(spins(alloc)?)?;
    Ok(text)
}
