//! The flat design that the walk leaves.
ghost use Rattle.std.specs.Prelude.{◌≡◌, IfOk};
ghost use Rattle.driver_check.specs.Refused.{judged};

use crate::drivers::driven;
use crate::frame::framed;
use flat_design::{Flat, Objects};
use std::alloc::{AllocError, Global};
use unit_meaning::Refusal;

/// The flat design of these objects, or why there is none: two processes assign a signal, or the frame has too many values.
pub fn flat_of(alloc: Global, objects: Objects) -> Result<Result<Flat, Refusal>, AllocError>
    ensures { IfOk result (λ answer. answer ≡ judged objects) }
{
    match driven(alloc, &objects) {
        Ok(None) => framed(alloc, objects),
        Ok(Some(refusal)) => {
            drop(objects);
            Ok(Err(refusal))
        }
        Err(error) => {
            drop(objects);
            Err(error)
        }
    }
}
