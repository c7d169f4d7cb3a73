//! What the designs are built of.
ghost use Rattle.std.specs.Prelude.{◌≡◌, ◌++◌, ◌∷◌, [], IfOk, OnOk};
ghost use Rattle.fix_core.specs.Fixed.{IsInRange};
ghost use Rattle.design_rules.specs.Design.{domain_type};
ghost use Rattle.solver_designs.specs.Designs as spec;

use ams_value::{BinaryOperator, Val, ValueType};
use fix_core::Fix;
use flat_design::{Enumeration, Equation, Instance, Name, Pair, Quantity, QuantityKind};
use flat_expr::{FlatExpr, Unknown};
use sqlite_items::Items;
use std::alloc::{AllocError, Global};

fn add_name(alloc: Global, text: &str, names: &mut Items<Name>) -> Result<(), AllocError>
    ensures { OnOk result (names.new ≡ names.old ++ text.now ∷ []) }
{
    names.push(Items::from_slice(alloc, text.as_bytes())?)
}

/// DOMAIN_TYPE alone.
pub fn enumerations(alloc: Global) -> Result<Items<Enumeration>, AllocError>
    ensures { IfOk result (λ list. list ≡ domain_type ∷ []) }
{
    let mut literals = Items::new(alloc);
    add_name(alloc, "quiescent_domain", &mut literals)?;
    add_name(alloc, "time_domain", &mut literals)?;
    add_name(alloc, "frequency_domain", &mut literals)?;
    let mut list = Items::new(alloc);
    list.push(Enumeration { literals })?;
    Ok(list)
}

/// An instance with as many equations as unknowns.
pub fn instances(alloc: Global, path: &str, count: u32) -> Result<Items<Instance>, AllocError>
    ensures { IfOk result (λ list. list ≡ spec.instance path.now count ∷ []) }
{
    let mut list = Items::new(alloc);
    list.push(Instance {
        path: Items::from_slice(alloc, path.as_bytes())?,
        equations: count,
        unknowns: count,
    })?;
    Ok(list)
}

pub fn add_quantity(
    alloc: Global,
    path: &str,
    kind: QuantityKind,
    list: &mut Items<Quantity>,
) -> Result<(), AllocError>
    ensures { OnOk result (list.new ≡ list.old ++ spec.quantity path.now kind ∷ []) }
{
    list.push(Quantity {
        path: Items::from_slice(alloc, path.as_bytes())?,
        kind,
        initial: Fix::exactly(0),
    })
}

pub fn number(units: i128) -> FlatExpr
    requires { IsInRange units }
    ensures { result ≡ spec.number units }
{
    FlatExpr::Literal(Val::Real(Fix::exactly(units)))
}

pub fn times(alloc: Global, left: FlatExpr, right: FlatExpr) -> Result<FlatExpr, AllocError>
    ensures { IfOk result (λ made. made ≡ spec.times left right) }
{
    FlatExpr::binary(
        alloc,
        BinaryOperator::Multiply,
        ValueType::Real,
        left,
        right,
    )
}

pub fn less(alloc: Global, left: FlatExpr, right: FlatExpr) -> Result<FlatExpr, AllocError>
    ensures { IfOk result (λ made. made ≡ spec.less left right) }
{
    FlatExpr::binary(
        alloc,
        BinaryOperator::Subtract,
        ValueType::Real,
        left,
        right,
    )
}

pub fn equation(unknown: Unknown, right: FlatExpr) -> Equation
    ensures { result ≡ spec.equation unknown right }
{
    Equation::Pair(Pair {
        left: FlatExpr::Unknown(unknown),
        right,
    })
}
