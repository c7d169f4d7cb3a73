//! A quantity whose slope is a polynomial of the time.
ghost use Rattle.std.specs.Prelude.{◌≡◌, pos, IfOk};
ghost use Rattle.solver_designs.specs.Designs as spec;

use crate::parts::{add_quantity, enumerations, equation, instances, less, number, times};
use flat_design::{Flat, Objects, QuantityKind};
use flat_expr::{FlatExpr, Unknown};
use held_value::Held;
use sqlite_items::Items;
use std::alloc::{AllocError, Global};

fn nanoseconds(alloc: Global) -> Result<FlatExpr, AllocError>
    ensures { IfOk result (λ made. made ≡ spec.nanoseconds) }
{
    times(
        alloc,
        number(1_000_000_000_000_000_000_000),
        FlatExpr::NowReal,
    )
}

/// 1.0e6 * (1.0e9 * now)
fn rising(alloc: Global) -> Result<FlatExpr, AllocError>
    ensures { IfOk result (λ made. made ≡ spec.times (spec.number (pos 1000000000000000000)) spec.nanoseconds) }
{
    times(
        alloc,
        number(1_000_000_000_000_000_000),
        nanoseconds(alloc)?,
    )
}

/// 1.0e9 * now - 5.0
fn past_middle(alloc: Global) -> Result<FlatExpr, AllocError>
    ensures { IfOk result (λ made. made ≡ spec.less spec.nanoseconds (spec.number (pos 5000000000000))) }
{
    less(alloc, nanoseconds(alloc)?, number(5_000_000_000_000))
}

/// 10.0 - 1.0e9 * now
fn before_end(alloc: Global) -> Result<FlatExpr, AllocError>
    ensures { IfOk result (λ made. made ≡ spec.less (spec.number (pos 10000000000000)) spec.nanoseconds) }
{
    less(alloc, number(10_000_000_000_000), nanoseconds(alloc)?)
}

fn first_factors(alloc: Global) -> Result<FlatExpr, AllocError>
    ensures { IfOk result (λ made. made ≡ spec.times (spec.times (spec.number (pos 1000000000000000000)) spec.nanoseconds) (spec.less spec.nanoseconds (spec.number (pos 5000000000000)))) }
{
    let left = Held::new(rising(alloc)?);
    let right = past_middle(alloc)?;
    times(alloc, left.into_inner(), right)
}

fn polynomial(alloc: Global) -> Result<FlatExpr, AllocError>
    ensures { IfOk result (λ made. made ≡ spec.polynomial) }
{
    let left = Held::new(first_factors(alloc)?);
    let right = before_end(alloc)?;
    times(alloc, left.into_inner(), right)
}

fn slope_objects(alloc: Global) -> Result<Objects, AllocError>
    ensures { IfOk result (λ objects. objects ≡ spec.polynomial_slope) }
{
    let mut quantities = Items::new(alloc);
    add_quantity(alloc, "e.q", QuantityKind::Free, &mut quantities)?;
    let dots = Items::from_slice(alloc, &[0])?;
    let instances = instances(alloc, "e", 1)?;
    let enumerations = enumerations(alloc)?;
    let mut equations = Items::new(alloc);
    equations.push(equation(Unknown::Dot(0), polynomial(alloc)?))?;
    Ok(Objects {
        signals: Items::new(alloc),
        quantities,
        nodes: Items::new(alloc),
        equations,
        dots,
        thresholds: Items::new(alloc),
        processes: Items::new(alloc),
        instances,
        enumerations,
        ramps: Items::new(alloc),
    })
}

/// A quantity whose slope is a polynomial of the time.
#[tactic(auto, using(crate::proofs::Designs::slope_has_numbers))]
pub fn polynomial_slope(alloc: Global) -> Result<Flat, AllocError>
    ensures { IfOk result (λ flat. flat ≡ spec.polynomial_slope) }
{
    let objects = slope_objects(alloc)?;
    Flat::new(alloc, objects)
}
