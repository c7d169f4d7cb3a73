//! Why a design isn't flattened.
use std::alloc::AllocError;
use unit_meaning::Refusal;

/// A design is refused, or memory ran out.
#[derive(Drop)]
pub enum Stop {
    Refused(Refusal),
    OutOfMemory,
}

impl From<AllocError> for Stop {
    ghost use Rattle.std.specs.Prelude.{◌≡◌};
    ghost use Rattle.walk_answers.specs.declared.stop.Stop.TheVariants.{OutOfMemory};

    ghost from_gives = { λ _ e. e ≡ OutOfMemory };

    fn from(_error: AllocError) -> Stop {
        Stop::OutOfMemory
    }
}
