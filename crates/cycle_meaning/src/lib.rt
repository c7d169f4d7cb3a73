//! What a flat design means on its digital side: a process between two waits, the cycle, and what a run reads of the
//! state between cycles. All of it is definitions for the contracts of the digital kernel; the functions here are laws,
//! which are proved and do nothing when they run.
#![tactic(auto)]

ghost use Rattle.cycle_meaning.specs.Counting.{StatementsCount};
ghost use Rattle.cycle_meaning.specs.Waveforms.{WorkedWaveforms};
ghost use Rattle.cycle_meaning.specs.Worked.{WorkedCycles};

/// What counts in the budget of a process, and what some statements lead to.
#[tactic(auto, using(crate::proofs::CountingRows::counts))]
pub fn statements_count()
    ensures { StatementsCount }
{}

/// Small cycles, worked by hand.
#[tactic(auto, using(crate::proofs::WorkedCycleRows::cycles))]
pub fn worked_cycles()
    ensures { WorkedCycles }
{}

/// Small assignments to a driver, worked by hand.
#[tactic(auto, using(crate::proofs::WaveformRows::waveforms))]
pub fn worked_waveforms()
    ensures { WorkedWaveforms }
{}
