ghost use Rattle.std.specs.Prelude.{◌≡◌};
ghost use Rattle.run_status.specs.Ran.{end_status, run_status, RunsHandOn};

use program_output::Status;
use step_data::End;
use trace_sink::TraceFault;

/// The status of a run that ends so.
pub fn end_status(end: End) -> Status
    ensures { result ≡ end_status end }
{
    match end {
        End::Reached(_) => Status::Reached,
        End::Refused { .. } => Status::RunRefused,
    }
}

/// The status of a run that ends so, or whose trace isn't written to its end.
pub fn run_status(ended: Result<End, TraceFault>) -> Status
    ensures { result ≡ run_status ended }
{
    match ended {
        Ok(end) => end_status(end),
        Err(TraceFault::WriteFault) => Status::WriteFault,
        Err(TraceFault::Memory) => Status::Memory,
    }
}

/// A run that has written its lines has handed on its output. It is proved, and does nothing when it runs.
#[tactic(auto, using(crate::specs::RanLaws::runs_hand_on))]
pub fn runs_hand_on()
    ensures { RunsHandOn }
{}
