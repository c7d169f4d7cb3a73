//! Which systems a design's kernel runs.
ghost use Rattle.digital_kernel.specs.Runs.{SystemsAreRun};

/// The system that a design with its options is has the design's digital side. It is proved, and does nothing when it runs.
#[tactic(auto, using(crate::proofs::Sides::systems_are_run))]
pub fn systems_are_run()
    ensures { SystemsAreRun }
{}
