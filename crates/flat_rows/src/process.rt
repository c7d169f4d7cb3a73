//! The process of the design:
//!
//! ```text
//! process
//!     variable held : real range 0.0 to 9.0 := 2.0;
//! begin
//!     other <= held;
//!     wait for 1 us;
//! end process;
//! ```

use crate::build::name;
use ams_value::{Val, ValueType};
use fix_core::Fix;
use flat_design::{PathStep, Process, Variable, WaitPlace};
use flat_expr::{Constraint, DelayMechanism, FlatExpr, Statement, WaveElement};
use sqlite_items::Items;
use std::alloc::{AllocError, Global};

fn variables(alloc: Global) -> Result<Items<Variable>, AllocError> {
    let mut variables = Items::new(alloc);
    variables.push(Variable {
        name: name(alloc, "held")?,
        kind: ValueType::Real,
        constraint: Constraint::Real(Fix::exactly(0), Fix::exactly(9_000_000_000_000)),
        initial: Val::Real(Fix::exactly(2_000_000_000_000)),
        is_parameter: false,
    })?;
    Ok(variables)
}

/// The assignment of the variable to signal 1.
fn assignment(alloc: Global) -> Result<Statement, AllocError> {
    let mut wave = Items::new(alloc);
    wave.push(WaveElement {
        value: FlatExpr::Variable(0, ValueType::Real),
        delay: None,
    })?;
    Ok(Statement::SignalAssignment(1, Constraint::Whole, DelayMechanism::Inertial(None), wave))
}

fn wait(alloc: Global) -> Statement {
    let time = FlatExpr::Literal(Val::Time(1_000_000));
    Statement::Wait(0, Items::new(alloc), None, Some(time))
}

fn statements(alloc: Global) -> Result<Items<Statement>, AllocError> {
    let mut statements = Items::new(alloc);
    statements.push(assignment(alloc)?)?;
    statements.push(wait(alloc))?;
    Ok(statements)
}

fn waits(alloc: Global) -> Result<Items<WaitPlace>, AllocError> {
    let step = PathStep {
        statement: 1,
        branch: 0,
    };
    let mut waits = Items::new(alloc);
    waits.push(WaitPlace {
        path: Items::from_slice(alloc, &[step])?,
        parameters: Items::new(alloc),
    })?;
    Ok(waits)
}

pub fn process(alloc: Global) -> Result<Process, AllocError> {
    Ok(Process {
        variables: variables(alloc)?,
        statements: statements(alloc)?,
        drivers: Items::from_slice(alloc, &[1])?,
        waits: waits(alloc)?,
    })
}
