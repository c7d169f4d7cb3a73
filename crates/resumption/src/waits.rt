//! The waits of a design.
ghost use Rattle.std.specs.Prelude.{◌≡◌, map, length, IfOk, slice_get, slice_index_or, []};
ghost use Rattle.std.specs.Option.{option_copied};
ghost use Rattle.flat_expr.specs.declared.statement.Statement.{out-Statement};
ghost use Rattle.cycle_meaning.specs.Cycles.{waiting_at};
ghost use Rattle.resumption.specs.Sleeps.{waits_of, waiting_or_none};
ghost use Rattle.resumption.specs.Waits.{is_wait, waiting_found, row_of, rows_of, AreWaits};

use flat_design::{PathStep, Process};
use flat_expr::Statement;
use process_stack::{inner_body, statement_at};
use std::alloc::{AllocError, Global};

/// Of each process its wait statements by their numbers, so that no way to them is walked again.
#[derive(Drop)]
pub struct Waits<'a> {
    rows: Vec<Vec<Option<&'a Statement>>>,
}

fn is_wait(statement: &Statement) -> bool
    ensures { result ≡ is_wait (out-Statement statement.now) }
{
    match statement {
        Statement::Wait(_, _, _, _) => true,
        _ => false,
    }
}

/// The wait statement that a way leads to.
fn wait_at<'a>(text: &'a [Statement], path: &[PathStep]) -> Option<&'a Statement>
    ensures { waiting_found (option_copied result) ≡ waiting_at path.now text.now }
{
    let mut body = text;
    for step in path {
        match statement_at(body, step.statement as usize) {
            Some(statement) => {
                if is_wait(statement) {
                    return Some(statement);
                }
                body = inner_body(statement, step.branch as usize);
            }
            None => return None,
        }
    }
    None
}

/// The wait statements of a process by their numbers.
fn waits_of<'a>(
    alloc: Global,
    process: &'a Process,
) -> Result<Vec<Option<&'a Statement>>, AllocError>
    ensures { IfOk result (λ row. row_of row.items ≡ waits_of process.now) }
{
    let text = process.statements.as_slice();
    let mut row = Vec::new(alloc);
    for place in process.waits.as_slice() {
        row.push(wait_at(text, place.path.as_slice()))?;
    }
    Ok(row)
}

impl<'a> Waits<'a> {
    /// The waits of these processes.
    pub fn new(alloc: Global, processes: &'a [Process]) -> Result<Waits<'a>, AllocError>
        ensures { IfOk result (λ waits. AreWaits processes.now waits) }
    {
        let mut rows = Vec::new(alloc);
        for process in processes {
            rows.push(waits_of(alloc, process)?)?;
        }
        Ok(Waits { rows })
    }

    /// The wait statement of a process with this number.
    pub(crate) fn wait(&self, process: usize, number: u32) -> Option<&'a Statement>
        ensures { waiting_found (option_copied result) ≡ waiting_or_none (slice_get (slice_index_or (rows_of self.now.rows.items) process []) number) }
    {
        match self.rows.get(process) {
            Some(row) => match row.get(number as usize) {
                Some(wait) => *wait,
                None => None,
            },
            None => None,
        }
    }
}
