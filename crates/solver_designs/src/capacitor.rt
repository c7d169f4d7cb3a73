//! A resistor and a capacitor at 5 V.
ghost use Rattle.std.specs.Prelude.{◌≡◌, ◌++◌, ◌∷◌, [], IfOk, OnOk};
ghost use Rattle.fix_core.specs.Fixed.{IsInRange};
ghost use Rattle.flat_expr.specs.declared.expr.FlatExpr.TheVariants as e;
ghost use Rattle.solver_designs.specs.Designs as spec;

use crate::parts::{add_quantity, enumerations, equation, instances, number, times};
use flat_design::{Equation, Flat, Node, Objects, Quantity, QuantityKind, Terminal};
use flat_expr::{FlatExpr, Unknown};
use sqlite_items::Items;
use std::alloc::{AllocError, Global};

const FIRST: Terminal = Terminal::Node(0);

const SECOND: Terminal = Terminal::Node(1);

const GROUND: Terminal = Terminal::Reference;

fn branches(alloc: Global) -> Result<Items<Quantity>, AllocError>
    ensures { IfOk result (λ list. list ≡ spec.branches) }
{
    let mut list = Items::new(alloc);
    add_quantity(
        alloc,
        "rc.vs",
        QuantityKind::Across(FIRST, GROUND),
        &mut list,
    )?;
    add_quantity(
        alloc,
        "rc.js",
        QuantityKind::Through(FIRST, GROUND),
        &mut list,
    )?;
    add_quantity(
        alloc,
        "rc.vr",
        QuantityKind::Across(FIRST, SECOND),
        &mut list,
    )?;
    add_quantity(
        alloc,
        "rc.ir",
        QuantityKind::Through(FIRST, SECOND),
        &mut list,
    )?;
    add_quantity(
        alloc,
        "rc.vc",
        QuantityKind::Across(SECOND, GROUND),
        &mut list,
    )?;
    add_quantity(
        alloc,
        "rc.ic",
        QuantityKind::Through(SECOND, GROUND),
        &mut list,
    )?;
    Ok(list)
}

fn add_node(alloc: Global, path: &str, list: &mut Items<Node>) -> Result<(), AllocError>
    ensures { OnOk result (list.new ≡ list.old ++ record { path = path.now } ∷ []) }
{
    list.push(Node {
        path: Items::from_slice(alloc, path.as_bytes())?,
    })
}

fn nodes(alloc: Global) -> Result<Items<Node>, AllocError>
    ensures { IfOk result (λ list. list ≡ spec.nodes) }
{
    let mut list = Items::new(alloc);
    add_node(alloc, "rc.n1", &mut list)?;
    add_node(alloc, "rc.n2", &mut list)?;
    Ok(list)
}

/// A number of so many units times an unknown.
fn scaled(alloc: Global, units: i128, unknown: Unknown) -> Result<FlatExpr, AllocError>
    requires { IsInRange units }
    ensures { IfOk result (λ made. made ≡ spec.times (spec.number units) (e.Unknown unknown)) }
{
    times(alloc, number(units), FlatExpr::Unknown(unknown))
}

fn charging(alloc: Global) -> Result<Items<Equation>, AllocError>
    ensures { IfOk result (λ list. list ≡ spec.charging) }
{
    let mut list = Items::new(alloc);
    list.push(equation(Unknown::Quantity(0), number(5_000_000_000_000)))?;
    let drop = scaled(alloc, 1_000_000_000_000_000, Unknown::Quantity(3))?;
    list.push(equation(Unknown::Quantity(2), drop))?;
    let current = scaled(alloc, 1000, Unknown::Dot(0))?;
    list.push(equation(Unknown::Quantity(5), current))?;
    Ok(list)
}

fn capacitor_objects(alloc: Global) -> Result<Objects, AllocError>
    ensures { IfOk result (λ objects. objects ≡ spec.charged_capacitor) }
{
    let quantities = branches(alloc)?;
    let nodes = nodes(alloc)?;
    let dots = Items::from_slice(alloc, &[4])?;
    let instances = instances(alloc, "rc", 3)?;
    let enumerations = enumerations(alloc)?;
    let equations = charging(alloc)?;
    Ok(Objects {
        signals: Items::new(alloc),
        quantities,
        nodes,
        equations,
        dots,
        thresholds: Items::new(alloc),
        processes: Items::new(alloc),
        instances,
        enumerations,
        ramps: Items::new(alloc),
    })
}

/// A resistor of 1 kOhm and a capacitor of 1 nF at 5 V.
#[tactic(auto, using(crate::proofs::Designs::capacitor_has_numbers))]
pub fn charged_capacitor(alloc: Global) -> Result<Flat, AllocError>
    ensures { IfOk result (λ flat. flat ≡ spec.charged_capacitor) }
{
    let objects = capacitor_objects(alloc)?;
    Flat::new(alloc, objects)
}
