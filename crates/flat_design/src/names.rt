//! The names of equations.
ghost use Rattle.std.specs.Prelude.{◌≡◌, ◌+◌, ◌<◌, length, map, IfOk};
ghost use Rattle.std.specs.List.{range_with_len};
ghost use Rattle.flat_design.specs.declared.names.EquationName.TheVariants.{Explicit, Sum, Augmentation};
ghost use Rattle.flat_design.specs.Order.{size_of, explicit_of, explicit_from, across_of, across_from};

use crate::objects::{Equation, Quantity, QuantityKind};
use sqlite_items::Items;
use std::alloc::{AllocError, Global};

/// An equation of the sets: a pair of an explicit equation, with its place among the pairs of the chosen branch; the
/// sum of a node; the equation of an across quantity, by the quantity's number; or the augmentation equation of a dot.
#[derive(Clone, Copy, Debug, PartialEq, Eq)]
pub enum EquationName {
    Explicit(u32, u32),
    Sum(u32),
    Across(u32),
    Augmentation(u32),
}

/// How many equations an explicit one gives.
fn size_of(equation: &Equation) -> u32
    ensures { result ≡ size_of equation.now }
{
    match equation {
        Equation::Pair(_) => 1,
        Equation::Choice(choice) => choice.size,
    }
}

fn pair_names(alloc: Global, equation: u32, count: u32) -> Result<Vec<EquationName>, AllocError>
    ensures { IfOk result (λ names. names.items ≡ map (Explicit equation) (range_with_len 0 count)) }
{
    (0..count)
        .map(|pair| EquationName::Explicit(equation, pair))
        .collect(alloc)
}

fn names_of(
    alloc: Global,
    number: u32,
    equation: &Equation,
) -> Result<Items<EquationName>, AllocError>
    ensures { IfOk result (λ names. names ≡ explicit_of number equation.now) }
{
    let names = pair_names(alloc, number, size_of(equation))?;
    Ok(Items::from_vec(names))
}

/// The names of the explicit equations, of which the first has this number.
pub fn explicit_names(
    alloc: Global,
    number: u32,
    equations: &[Equation],
) -> Result<Items<EquationName>, AllocError>
    requires { number + length equations.now < 4294967296 }
    ensures { IfOk result (λ names. names ≡ explicit_from number equations.now) }
{
    match equations {
        [] => Ok(Items::new(alloc)),
        [first, rest @ ..] => {
            let mut names = names_of(alloc, number, first)?;
            names.append(explicit_names(alloc, number + 1, rest)?)?;
            Ok(names)
        }
    }
}

pub fn sum_names(alloc: Global, count: u32) -> Result<Vec<EquationName>, AllocError>
    ensures { IfOk result (λ names. names.items ≡ map Sum (range_with_len 0 count)) }
{
    (0..count)
        .map(|node| EquationName::Sum(node))
        .collect(alloc)
}

fn across_name(
    alloc: Global,
    quantity: u32,
    kind: QuantityKind,
) -> Result<Items<EquationName>, AllocError>
    ensures { IfOk result (λ names. names ≡ across_of quantity kind) }
{
    let mut names = Items::new(alloc);
    match kind {
        QuantityKind::Across(_, _) => {
            names.push(EquationName::Across(quantity))?;
            Ok(names)
        }
        QuantityKind::Free | QuantityKind::Through(_, _) => Ok(names),
    }
}

/// The names of the across quantities' equations; the first quantity has this number.
pub fn across_names(
    alloc: Global,
    number: u32,
    quantities: &[Quantity],
) -> Result<Items<EquationName>, AllocError>
    requires { number + length quantities.now < 4294967296 }
    ensures { IfOk result (λ names. names ≡ across_from number quantities.now) }
{
    match quantities {
        [] => Ok(Items::new(alloc)),
        [first, rest @ ..] => {
            let mut names = across_name(alloc, number, first.kind)?;
            names.append(across_names(alloc, number + 1, rest)?)?;
            Ok(names)
        }
    }
}

pub fn augmentation_names(alloc: Global, count: u32) -> Result<Vec<EquationName>, AllocError>
    ensures { IfOk result (λ names. names.items ≡ map Augmentation (range_with_len 0 count)) }
{
    (0..count)
        .map(|dot| EquationName::Augmentation(dot))
        .collect(alloc)
}
