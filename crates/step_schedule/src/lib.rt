//! The steps of engine and worker, and schedules of them for tests.
#![tactic(auto)]

ghost use Rattle.std.specs.Prelude.{◌≡◌, IfOk};
ghost use Rattle.step_schedule.specs.Letters.{turned, letter, letters};

use std::alloc::{AllocError, Global};

/// Whose step it is.
#[derive(Clone, Copy, Debug, PartialEq, Eq)]
pub enum Step {
    /// The engine's (driver).
    D,
    /// The worker's.
    W,
}

/// The next state of the generator.
fn turn(state: u64) -> u64
    ensures { result ≡ turned state }
{
    state
        .wrapping_mul(6_364_136_223_846_793_005)
        .wrapping_add(1_442_695_040_888_963_407)
}

/// A worker's step in the upper half of the states.
fn letter(state: u64) -> Step
    ensures { result ≡ letter state }
{
    if state >= 9_223_372_036_854_775_808 {
        Step::W
    } else {
        Step::D
    }
}

/// So many steps by a linear congruential generator that begins at the seed. It is for tests.
pub fn schedule(alloc: Global, seed: u64, len: u32) -> Result<Vec<Step>, AllocError>
    ensures { IfOk result (λ steps. steps.items ≡ letters seed len) }
{
    let mut steps = Vec::new(alloc);
    let mut state = seed;
    for _k in 0..len {
        state = turn(state);
        steps.push(letter(state))?;
    }
    Ok(steps)
}
