//! The length of the frame.
ghost use Rattle.std.specs.Prelude.{◌≡◌, IfOk, IsTrue};
ghost use Rattle.flat_design.specs.Flat.{HasNumbers};
ghost use Rattle.unit_meaning.specs.Drivers as spec;

use flat_design::{FRAME_LIMIT, Flat, Objects};
use std::alloc::{AllocError, Global};
use unit_meaning::{Limit, Refusal};

/// How many numbers there are for the objects of one list.
const NUMBER_COUNT: usize = 1 << 32;

fn has_numbers(objects: &Objects) -> bool
    ensures { IsTrue result → HasNumbers objects.now }
{
    objects.signals.len() < NUMBER_COUNT
        && objects.quantities.len() < NUMBER_COUNT
        && objects.nodes.len() < NUMBER_COUNT
        && objects.equations.len() < NUMBER_COUNT
        && objects.dots.len() < NUMBER_COUNT
        && objects.thresholds.len() < NUMBER_COUNT
}

fn within_frame(flat: Flat) -> Result<Flat, Refusal>
    ensures { result ≡ spec.framed flat }
{
    if flat.frame().len() > FRAME_LIMIT {
        drop(flat);
        Err(Refusal::TooMany(Limit::Frame))
    } else {
        Ok(flat)
    }
}

/// The flat design of these objects, or why there is none: its frame has more values than a frame may have.
pub fn framed(alloc: Global, objects: Objects) -> Result<Result<Flat, Refusal>, AllocError>
    ensures { IfOk result (λ answer. answer ≡ spec.framed objects) }
{
    if !has_numbers(&objects) {
        drop(objects);
        return Err(AllocError);
    }
    match Flat::new(alloc, objects) {
        Ok(flat) => Ok(within_frame(flat)),
        Err(error) => Err(error),
    }
}
