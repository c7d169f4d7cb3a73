//! A quantity whose level a simultaneous if chooses by a signal.
ghost use Rattle.std.specs.Prelude.{◌≡◌, ◌∷◌, [], IfOk};
ghost use Rattle.fix_core.specs.Fixed.{IsInRange};
ghost use Rattle.solver_designs.specs.Designs as spec;

use crate::parts::{add_quantity, enumerations, instances, number};
use ams_value::{BinaryOperator, Val, ValueType};
use flat_design::{Choice, Equation, Flat, IfArm, Objects, Pair, QuantityKind, Selection, Signal};
use flat_expr::{Constraint, FlatExpr, SignalName, Unknown};
use held_value::Held;
use sqlite_items::Items;
use std::alloc::{AllocError, Global};

fn signals(alloc: Global) -> Result<Items<Signal>, AllocError>
    ensures { IfOk result (λ list. list ≡ spec.chooser ∷ []) }
{
    let mut list = Items::new(alloc);
    list.push(Signal {
        path: Items::from_slice(alloc, "e.s".as_bytes())?,
        kind: ValueType::Bit,
        constraint: Constraint::Whole,
        initial: Val::Bit(false),
    })?;
    Ok(list)
}

fn is_high(alloc: Global) -> Result<FlatExpr, AllocError>
    ensures { IfOk result (λ made. made ≡ spec.is_high) }
{
    let signal = FlatExpr::Signal(SignalName::Signal(0), ValueType::Bit);
    let high = FlatExpr::Literal(Val::Bit(true));
    FlatExpr::binary(
        alloc,
        BinaryOperator::Equal,
        ValueType::Boolean,
        signal,
        high,
    )
}

fn has_level(alloc: Global, units: i128) -> Result<Items<Pair>, AllocError>
    requires { IsInRange units }
    ensures { IfOk result (λ list. list ≡ spec.has_level units ∷ []) }
{
    let mut list = Items::new(alloc);
    list.push(Pair {
        left: FlatExpr::Unknown(Unknown::Quantity(0)),
        right: number(units),
    })?;
    Ok(list)
}

fn arms(alloc: Global) -> Result<Items<IfArm>, AllocError>
    ensures { IfOk result (λ list. list ≡ spec.high_arm ∷ []) }
{
    let pairs = Held::new(has_level(alloc, 2_000_000_000_000)?);
    let condition = is_high(alloc)?;
    let mut list = Items::new(alloc);
    list.push(IfArm {
        condition,
        pairs: pairs.into_inner(),
    })?;
    Ok(list)
}

fn choice(alloc: Global) -> Result<Choice, AllocError>
    ensures { IfOk result (λ choice. choice ≡ spec.choice) }
{
    let arms = Held::new(arms(alloc)?);
    let last = has_level(alloc, 1_000_000_000_000)?;
    Ok(Choice {
        selection: Selection::If(arms.into_inner(), last),
        size: 1,
    })
}

fn level_objects(alloc: Global) -> Result<Objects, AllocError>
    ensures { IfOk result (λ objects. objects ≡ spec.chosen_level) }
{
    let signals = signals(alloc)?;
    let mut quantities = Items::new(alloc);
    add_quantity(alloc, "e.q", QuantityKind::Free, &mut quantities)?;
    let instances = instances(alloc, "e", 1)?;
    let enumerations = enumerations(alloc)?;
    let mut equations = Items::new(alloc);
    equations.push(Equation::Choice(choice(alloc)?))?;
    Ok(Objects {
        signals,
        quantities,
        nodes: Items::new(alloc),
        equations,
        dots: Items::new(alloc),
        thresholds: Items::new(alloc),
        processes: Items::new(alloc),
        instances,
        enumerations,
        ramps: Items::new(alloc),
    })
}

/// A quantity that is 2.0 where a signal is '1', else 1.0.
#[tactic(auto, using(crate::proofs::Designs::level_has_numbers))]
pub fn chosen_level(alloc: Global) -> Result<Flat, AllocError>
    ensures { IfOk result (λ flat. flat ≡ spec.chosen_level) }
{
    let objects = level_objects(alloc)?;
    Flat::new(alloc, objects)
}
