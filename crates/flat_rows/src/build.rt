//! A resistor of 1 kOhm and a capacitor of 1 uF at 5 V, object by object.

use crate::process::process;
use ams_value::{BinaryOperator, Val, ValueType};
use fix_core::Fix;
use flat_design::{
    Enumeration, Equation, Instance, Name, Node, Objects, Pair, Quantity, QuantityKind, Ramp,
    Signal, Terminal, Threshold,
};
use flat_expr::{Constraint, FlatExpr, SignalName, Unknown};
use sqlite_items::Items;
use std::alloc::{AllocError, Global};
use std::process::Abort;

const FIRST: Terminal = Terminal::Node(0);

const SECOND: Terminal = Terminal::Node(1);

const GROUND: Terminal = Terminal::Reference;

/// The across and the through quantity of the source, of the resistor and of the capacitor.
const QUANTITIES: [(u32, &str, QuantityKind); 6] = [
    (0, "rc.v", QuantityKind::Across(FIRST, GROUND)),
    (1, "rc.i", QuantityKind::Through(FIRST, GROUND)),
    (2, "rc.vr", QuantityKind::Across(FIRST, SECOND)),
    (3, "rc.ir", QuantityKind::Through(FIRST, SECOND)),
    (4, "rc.vc", QuantityKind::Across(SECOND, GROUND)),
    (5, "rc.ic", QuantityKind::Through(SECOND, GROUND)),
];

pub fn name(alloc: Global, text: &str) -> Result<Name, AllocError> {
    Items::from_slice(alloc, text.as_bytes())
}

/// A signal of 5.0, and one of 0.0 that no equation reads.
fn add_signals(rt: &impl Abort, alloc: Global, objects: &mut Objects) -> Result<(), AllocError> {
    for (number, path, units) in [(0, "rc.level", 5_000_000_000_000), (1, "rc.other", 0)] {
        let signals = objects.signals.len();
        assert!(rt; signals < 100);
        let added = objects.add_signal(Signal {
            path: name(alloc, path)?,
            kind: ValueType::Real,
            constraint: Constraint::Whole,
            initial: Val::Real(Fix::exactly(units)),
        })?;
        assert!(rt; added == number);
    }
    Ok(())
}

fn add_nodes(rt: &impl Abort, alloc: Global, objects: &mut Objects) -> Result<(), AllocError> {
    for (number, path) in [(0, "rc.n1"), (1, "rc.n2")] {
        let nodes = objects.nodes.len();
        assert!(rt; nodes < 100);
        let path = name(alloc, path)?;
        let added = objects.add_node(Node { path })?;
        assert!(rt; added == number);
    }
    Ok(())
}

fn add_quantities(rt: &impl Abort, alloc: Global, objects: &mut Objects) -> Result<(), AllocError> {
    for (number, path, kind) in QUANTITIES {
        let quantities = objects.quantities.len();
        assert!(rt; quantities < 100);
        let added = objects.add_quantity(Quantity {
            path: name(alloc, path)?,
            kind,
            initial: Fix::exactly(0),
        })?;
        assert!(rt; added == number);
    }
    Ok(())
}

fn quantity(number: u32) -> FlatExpr {
    FlatExpr::Unknown(Unknown::Quantity(number))
}

/// A product of a constant, in units.
fn product(alloc: Global, units: i64, factor: FlatExpr) -> Result<FlatExpr, AllocError> {
    let constant = FlatExpr::Literal(Val::Real(Fix::exactly(i128::from(units))));
    FlatExpr::binary(
        alloc,
        BinaryOperator::Multiply,
        ValueType::Real,
        constant,
        factor,
    )
}

/// The source is as high as signal 0; the resistor's voltage and the capacitor's current follow.
fn right_side(alloc: Global, equation: u32) -> Result<FlatExpr, AllocError> {
    match equation {
        0 => Ok(FlatExpr::Signal(SignalName::Signal(0), ValueType::Real)),
        1 => product(alloc, 1_000_000_000_000_000, quantity(3)),
        _ => product(alloc, 1_000_000, FlatExpr::Unknown(Unknown::Dot(0))),
    }
}

fn add_equations(rt: &impl Abort, alloc: Global, objects: &mut Objects) -> Result<(), AllocError> {
    for (number, left) in [(0, 0), (1, 2), (2, 5)] {
        let equations = objects.equations.len();
        assert!(rt; equations < 100);
        let added = objects.add_equation(Equation::Pair(Pair {
            left: quantity(left),
            right: right_side(alloc, number)?,
        }))?;
        assert!(rt; added == number);
    }
    Ok(())
}

/// The dot of the capacitor's voltage and its threshold of 2.5 V, each asked for twice.
fn add_dot_and_threshold(rt: &impl Abort, objects: &mut Objects) -> Result<(), AllocError> {
    for _ in 0..2 {
        let dots = objects.dots.len();
        let thresholds = objects.thresholds.len();
        assert!(rt; dots < 100 && thresholds < 100);
        let dot = objects.add_dot(4)?;
        let threshold = objects.add_threshold(Threshold {
            quantity: 4,
            level: Fix::exactly(2_500_000_000_000),
        })?;
        assert!(rt; dot == 0 && threshold == 0);
    }
    Ok(())
}

fn add_process(rt: &impl Abort, alloc: Global, objects: &mut Objects) -> Result<(), AllocError> {
    let processes = objects.processes.len();
    assert!(rt; processes < 100);
    let number = objects.add_process(process(alloc)?)?;
    assert!(rt; number == 0);
    Ok(())
}

fn add_instance(rt: &impl Abort, alloc: Global, objects: &mut Objects) -> Result<(), AllocError> {
    let instances = objects.instances.len();
    assert!(rt; instances < 100);
    let number = objects.add_instance(Instance {
        path: name(alloc, "rc")?,
        equations: 3,
        unknowns: 3,
    })?;
    assert!(rt; number == 0);
    Ok(())
}

/// DOMAIN_TYPE, with two of its literals.
fn domain(alloc: Global) -> Result<Enumeration, AllocError> {
    let mut literals = Items::new(alloc);
    for literal in ["quiescent_domain", "time_domain"] {
        literals.push(name(alloc, literal)?)?;
    }
    Ok(Enumeration { literals })
}

fn add_enumeration(
    rt: &impl Abort,
    alloc: Global,
    objects: &mut Objects,
) -> Result<(), AllocError> {
    let enumerations = objects.enumerations.len();
    assert!(rt; enumerations < 100);
    let number = objects.add_enumeration(domain(alloc)?)?;
    assert!(rt; number == 0);
    Ok(())
}

/// A ramp of 1 us up and 2 us down, whose four signals and quantity the design does not have.
fn add_ramp(rt: &impl Abort, objects: &mut Objects) -> Result<(), AllocError> {
    let ramps = objects.ramps.len();
    assert!(rt; ramps < 100);
    let number = objects.add_ramp(Ramp {
        signal: 1,
        rise: Fix::exactly(1_000_000),
        fall: Fix::exactly(2_000_000),
        first: 2,
        quantity: 6,
    })?;
    assert!(rt; number == 0);
    Ok(())
}

fn add_all(rt: &impl Abort, alloc: Global, objects: &mut Objects) -> Result<(), AllocError> {
    add_signals(rt, alloc, objects)?;
    add_nodes(rt, alloc, objects)?;
    add_quantities(rt, alloc, objects)?;
    add_equations(rt, alloc, objects)?;
    add_dot_and_threshold(rt, objects)?;
    add_process(rt, alloc, objects)?;
    add_instance(rt, alloc, objects)?;
    add_enumeration(rt, alloc, objects)?;
    add_ramp(rt, objects)
}

/// The objects of the design, each added with the number that it must get.
pub fn objects(rt: &impl Abort, alloc: Global) -> Result<Objects, AllocError> {
    let mut objects = Objects::new(alloc);
    match add_all(rt, alloc, &mut objects) {
        Ok(()) => Ok(objects),
        Err(error) => {
            drop(objects);
            Err(error)
        }
    }
}
