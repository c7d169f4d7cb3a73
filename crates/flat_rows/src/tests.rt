//! The design is built, and asked for all that it answers.

ghost use Rattle.std.specs.Prelude.{◌≡◌, true};
ghost use Rattle.flat_design.specs.Flat.{HasNumbers};

use crate::build::objects;
use crate::lists::lists_are_those_that_were_built;
use flat_design::{EquationName, Flat, Objects};
use flat_expr::Unknown;
use std::alloc::{AllocError, Global};
use std::process::Abort;
use std::test::Fail;

const EQUATION_NAMES: [EquationName; 9] = [
    EquationName::Explicit(0, 0),
    EquationName::Explicit(1, 0),
    EquationName::Explicit(2, 0),
    EquationName::Sum(0),
    EquationName::Sum(1),
    EquationName::Across(0),
    EquationName::Across(2),
    EquationName::Across(4),
    EquationName::Augmentation(0),
];

const UNKNOWNS: [(usize, Unknown, &str); 9] = [
    (0, Unknown::Quantity(0), "rc.v"),
    (1, Unknown::Quantity(1), "rc.i"),
    (2, Unknown::Quantity(2), "rc.vr"),
    (3, Unknown::Quantity(3), "rc.ir"),
    (4, Unknown::Quantity(4), "rc.vc"),
    (5, Unknown::Quantity(5), "rc.ic"),
    (6, Unknown::Reference(0), "rc.n1'reference"),
    (7, Unknown::Reference(1), "rc.n2'reference"),
    (8, Unknown::Dot(0), "rc.vc'dot"),
];

fn has_its_counts(objects: &Objects) -> bool
    ensures { result ≡ true → HasNumbers objects.now }
{
    objects.signals.len() == 2
        && objects.quantities.len() == 6
        && objects.nodes.len() == 2
        && objects.equations.len() == 3
        && objects.dots.len() == 1
        && objects.thresholds.len() == 1
}

fn resistor_and_capacitor(rt: &impl Abort, alloc: Global) -> Result<Flat, AllocError> {
    let objects = objects(rt, alloc)?;
    let right = has_its_counts(&objects);
    assert!(rt; right);
    Flat::new(alloc, objects)
}

fn equations_have_their_names(
    rt: &impl Abort,
    alloc: Global,
    flat: &Flat,
) -> Result<(), AllocError> {
    let names = flat.equation_names(alloc)?;
    assert!(rt; names.as_slice() == EQUATION_NAMES.as_slice());
    Ok(())
}

fn is_unknown(
    alloc: Global,
    flat: &Flat,
    number: usize,
    unknown: Unknown,
    path: &str,
) -> Result<bool, AllocError> {
    if number >= flat.unknown_count() {
        return Ok(false);
    }
    let name = flat.unknown_name(alloc, unknown)?;
    Ok(
        flat.unknown_at(number) == unknown
            && flat.number_of(unknown) == number
            && name.as_slice() == path.as_bytes(),
    )
}

fn unknowns_have_numbers_and_names(
    rt: &impl Abort,
    alloc: Global,
    flat: &Flat,
) -> Result<(), AllocError> {
    assert!(rt; flat.unknown_count() == 9);
    for (number, unknown, path) in UNKNOWNS {
        let right = is_unknown(alloc, flat, number, unknown, path)?;
        assert!(rt; right);
    }
    Ok(())
}

fn answers_are_right(rt: &impl Abort, alloc: Global, flat: &Flat) -> Result<(), AllocError> {
    lists_are_those_that_were_built(rt, flat);
    equations_have_their_names(rt, alloc, flat)?;
    unknowns_have_numbers_and_names(rt, alloc, flat)
}

fn built_and_asked(rt: &impl Abort, alloc: Global) -> Result<(), AllocError> {
    let flat = resistor_and_capacitor(rt, alloc)?;
    let answer = answers_are_right(rt, alloc, &flat);
    drop(flat);
    answer
}

#[test]
fn the_design_is_the_one_that_was_built(rt: HostRuntime) -> Result<(), Fail> {
    built_and_asked(&rt, rt.alloc())?;
    Ok(())
}
