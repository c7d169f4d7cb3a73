//! Adds the names, statement by statement.
ghost use Rattle.std.specs.Prelude.{◌≡◌, ◌++◌, ◌∷◌, [], List, ℕ, map, OnOk, IfOk};
ghost use Rattle.std.specs.List.{flat_map};
ghost use Rattle.ams_tree.specs.declared.concurrent.SimultaneousAlternative.{SimultaneousAlternative as Alternative};
ghost use Rattle.ams_tree.specs.declared.concurrent.SimultaneousBranch.{SimultaneousBranch as Branch};
ghost use Rattle.unit_meaning.specs.Simultaneous as spec;
ghost use Rattle.dot_names.specs.Dots.{dots_behind};

use ams_tree::{
    Attribute, Concurrent, ConcurrentStatement, Equation, Expr, Name, SimultaneousAlternative,
    SimultaneousBranch,
};
use sqlite_items::Items;
use std::alloc::{AllocError, Global};

#[cycle(dots)]
fn add_attribute(name: Name, attribute: &Attribute, dots: &mut Items<u32>) -> Result<(), AllocError>
    ensures { OnOk result (dots.new ≡ dots.old ++ dots_behind attribute.now name.number) }
{
    match attribute {
        Attribute::Dot => dots.push(name.number),
        Attribute::Above(level) => add_dots(level.get(), dots),
        Attribute::Event | Attribute::Reference | Attribute::Ramp(_, _) => Ok(()),
    }
}

#[cycle(dots)]
fn add_all(exprs: &[Expr], dots: &mut Items<u32>) -> Result<(), AllocError>
    ensures { OnOk result (dots.new ≡ dots.old ++ flat_map (λ (xs : List ℕ). xs) (map spec.dots_in exprs.now)) }
{
    for expr in exprs {
        add_dots(expr, dots)?;
    }
    Ok(())
}

/// Adds the names of an expression.
#[cycle(dots)]
#[tactic(auto, using(std::proofs::lemmas::List::append_assoc))]
fn add_dots(expr: &Expr, dots: &mut Items<u32>) -> Result<(), AllocError>
    ensures { OnOk result (dots.new ≡ dots.old ++ spec.dots_in expr.now) }
{
    match expr {
        Expr::Number(_, _) | Expr::Literal(_) | Expr::Name(_) => Ok(()),
        Expr::Call(_, exprs) => add_all(exprs.as_slice(), dots),
        Expr::Attribute(name, attribute) => add_attribute(*name, attribute, dots),
        Expr::Paren(_, inner) => add_dots(inner.get(), dots),
        Expr::Unary(_, _, operand) => add_dots(operand.get(), dots),
        Expr::Binary(_, left, right) => {
            add_dots(left.get(), dots)?;
            add_dots(right.get(), dots)
        }
    }
}

fn add_equations(equations: &[Equation], dots: &mut Items<u32>) -> Result<(), AllocError>
    ensures { OnOk result (dots.new ≡ dots.old ++ spec.dots_in_equations equations.now) }
{
    for equation in equations {
        add_dots(&equation.left, dots)?;
        add_dots(&equation.right, dots)?;
    }
    Ok(())
}

#[tactic(auto, using(crate::proofs::Appended::equations_append))]
fn add_branches(branches: &[SimultaneousBranch], dots: &mut Items<u32>) -> Result<(), AllocError>
    ensures { OnOk result (dots.new ≡ dots.old ++ spec.dots_in_equations (flat_map (λ (b : Branch). b.equations) branches.now)) }
{
    for branch in branches {
        add_equations(branch.equations.as_slice(), dots)?;
    }
    Ok(())
}

#[tactic(auto, using(crate::proofs::Appended::equations_append))]
fn add_alternatives(
    alternatives: &[SimultaneousAlternative],
    dots: &mut Items<u32>,
) -> Result<(), AllocError>
    ensures { OnOk result (dots.new ≡ dots.old ++ spec.dots_in_equations (flat_map (λ (a : Alternative). a.equations) alternatives.now)) }
{
    for alternative in alternatives {
        add_equations(alternative.equations.as_slice(), dots)?;
    }
    Ok(())
}

fn add_last(last: &Option<Items<Equation>>, dots: &mut Items<u32>) -> Result<(), AllocError>
    ensures { OnOk result (dots.new ≡ dots.old ++ spec.dots_in_equations (spec.equations_or last.now)) }
{
    match last {
        Some(last) => add_equations(last.as_slice(), dots),
        None => Ok(()),
    }
}

fn add_equation(equation: &Equation, dots: &mut Items<u32>) -> Result<(), AllocError>
    ensures { OnOk result (dots.new ≡ dots.old ++ spec.dots_in_equations (equation.now ∷ [])) }
{
    add_dots(&equation.left, dots)?;
    add_dots(&equation.right, dots)
}

#[tactic(auto, using(crate::proofs::Appended::equations_append))]
fn add_statement(statement: &ConcurrentStatement, dots: &mut Items<u32>) -> Result<(), AllocError>
    ensures { OnOk result (dots.new ≡ dots.old ++ spec.dots_in_equations (spec.equations_in statement.now)) }
{
    match statement {
        ConcurrentStatement::Equation(equation) => add_equation(equation, dots),
        ConcurrentStatement::If(_, branches, last) => {
            add_branches(branches.as_slice(), dots)?;
            add_last(last, dots)
        }
        ConcurrentStatement::Case(_, _, alternatives) => {
            add_alternatives(alternatives.as_slice(), dots)
        }
        _ => Ok(()),
    }
}

/// The names whose `'dot` stands in an equation of the statements, wherever in it.
pub fn selectors_of(alloc: Global, statements: &[Concurrent]) -> Result<Items<u32>, AllocError>
    ensures { IfOk result (λ selectors. selectors ≡ spec.selectors_of statements.now) }
{
    let mut selectors = Items::new(alloc);
    for written in statements {
        add_statement(&written.statement, &mut selectors)?;
    }
    Ok(selectors)
}
