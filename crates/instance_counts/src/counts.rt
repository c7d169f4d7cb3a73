//! Counting declarations, ports and statements.
ghost use Rattle.std.specs.Prelude.{◌≡◌, ◌+◌, IfOk};
ghost use Rattle.unit_meaning.specs.Walk as spec;

use ams_tree::{Concurrent, ConcurrentStatement, Declaration, Port};
use equation_types::equation_count;
use interface_types::is_out;
use std::alloc::AllocError;

/// The sum of two counts. No memory has room for objects whose number is past 32 bits.
pub fn sum_of(count: u32, more: usize) -> Result<u32, AllocError>
    ensures { IfOk result (λ total. total ≡ count + more) }
{
    let Ok(more) = u32::try_from(more) else {
        return Err(AllocError);
    };
    match count.checked_add(more) {
        Some(total) => Ok(total),
        None => Err(AllocError),
    }
}

/// How many quantities of mode out a declaration of ports has.
fn out_names(port: &Port) -> usize
    ensures { result ≡ spec.out_names port.now }
{
    match port {
        Port::Quantity(_, names, mode, _) => { if is_out(*mode) { names.len() } else { 0 } }
        Port::Signal(_, _, _, _, _) | Port::Terminal(_, _, _) => 0,
    }
}

/// How many quantity ports are of mode out.
pub fn out_count(ports: &[Port]) -> Result<u32, AllocError>
    ensures { IfOk result (λ count. count ≡ spec.out_count ports.now) }
{
    let mut count = 0;
    for port in ports {
        count = sum_of(count, out_names(port))?;
    }
    Ok(count)
}

/// How many free quantities and through quantities a declaration has.
fn own_quantities(declaration: &Declaration) -> usize
    ensures { result ≡ spec.own_quantities declaration.now }
{
    match declaration {
        Declaration::Quantity(_, names, _, _) => names.len(),
        Declaration::Through(_, through, _, _) => through.len(),
        Declaration::Across(_, _, through, _, _) => match through {
            Some(through) => through.len(),
            None => 0,
        },
        _ => 0,
    }
}

/// How many free quantities and through quantities are declared.
pub fn quantity_count(declarations: &[Declaration]) -> Result<u32, AllocError>
    ensures { IfOk result (λ count. count ≡ spec.quantity_count declarations.now) }
{
    let mut count = 0;
    for declaration in declarations {
        count = sum_of(count, own_quantities(declaration))?;
    }
    Ok(count)
}

/// How many equations statements give; a choice those of one branch.
pub fn equations_of(statements: &[Concurrent]) -> Result<u32, AllocError>
    ensures { IfOk result (λ count. count ≡ spec.equations_of statements.now) }
{
    let mut count = 0;
    for one in statements {
        count = sum_of(count, equation_count(&one.statement))?;
    }
    Ok(count)
}

/// Whether a statement is a process, or one that stands for a process.
fn is_process(statement: &ConcurrentStatement) -> bool
    ensures { result ≡ spec.is_process statement.now }
{
    matches!(
        statement,
        ConcurrentStatement::Process(_)
            | ConcurrentStatement::Assign(_, _, _, _, _)
            | ConcurrentStatement::Assert(_)
            | ConcurrentStatement::Break(_, _, _, _)
    )
}

/// How many processes statements give.
pub fn process_count(statements: &[Concurrent]) -> Result<u32, AllocError>
    ensures { IfOk result (λ count. count ≡ spec.process_count statements.now) }
{
    let mut count = 0;
    for one in statements {
        let more = usize::from(is_process(&one.statement));
        count = sum_of(count, more)?;
    }
    Ok(count)
}
