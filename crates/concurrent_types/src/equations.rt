//! Simultaneous statements (IEEE 1076.1, 15).
ghost use Rattle.std.specs.Prelude.{◌≡◌};
ghost use Rattle.unit_meaning.specs.Concurrent as spec;
ghost use Rattle.unit_meaning.specs.Simultaneous as simultaneous;
ghost use Rattle.expr_types.specs.Known.{Finds, IsSoundScope};

use ams_token::Place;
use ams_tree::{Equation as Written, Expr, SimultaneousAlternative, SimultaneousBranch};
use elab_meaning::{Notes, Part};
use equation_types::simple;
use flat_design::Equation;
use name_scope::Scope;
use simultaneous_types::{case_statement, if_statement};
use sqlite_items::Items;
use statement_parts::Setting;
use std::alloc::{AllocError, Global};
use unit_meaning::Made;

fn equation_of(equation: Part<Equation>) -> Made
    ensures { result ≡ spec.equation_of equation }
{
    match equation {
        Part::Kept(equation) => Made::Equation(equation),
        Part::Wrong | Part::Hidden => Made::Nothing,
    }
}

pub fn equation(
    alloc: Global,
    setting: &Setting<'_>,
    scope: &Scope,
    written: &Written,
    notes: &mut Notes,
) -> Result<Made, AllocError>
    requires { IsSoundScope scope.now }
    ensures { Finds (spec.equation_made (simultaneous.simple setting.now scope.now written.now notes.old)) result notes.new }
{
    let equation = simple(alloc, setting, scope, written, notes)?;
    Ok(equation_of(equation))
}

pub fn if_equation(
    alloc: Global,
    setting: &Setting<'_>,
    scope: &Scope,
    place: Place,
    branches: &[SimultaneousBranch],
    last: &Option<Items<Written>>,
    notes: &mut Notes,
) -> Result<Made, AllocError>
    requires { IsSoundScope scope.now }
    ensures { Finds (spec.equation_made (simultaneous.if_statement setting.now scope.now place branches.now last.now notes.old)) result notes.new }
{
    let equation = if_statement(alloc, setting, scope, place, branches, last, notes)?;
    Ok(equation_of(equation))
}

pub fn case_equation(
    alloc: Global,
    setting: &Setting<'_>,
    scope: &Scope,
    place: Place,
    expr: &Expr,
    alternatives: &[SimultaneousAlternative],
    notes: &mut Notes,
) -> Result<Made, AllocError>
    requires { IsSoundScope scope.now }
    ensures { Finds (spec.equation_made (simultaneous.case_statement setting.now scope.now place expr.now alternatives.now notes.old)) result notes.new }
{
    let equation = case_statement(alloc, setting, scope, place, expr, alternatives, notes)?;
    Ok(equation_of(equation))
}
