//! Processes that wait, as they are looked at before any runs.
ghost use Rattle.process_runs.specs.Sleeping.{asleep, SleepsFollow};

use crate::kept::KeptProcess;
use ams_value::Val;
use fix_core::Tick;
use resumption::Asleep;

impl Asleep for KeptProcess {
    ghost asleep = { asleep };

    fn wait(&self) -> u32 {
        self.wait()
    }

    fn timeout(&self) -> Option<Tick> {
        self.timeout()
    }

    fn variables(&self) -> &[Val] {
        self.variables()
    }
}

/// Processes that wait stand where they can be looked at, and what is kept of them is what is kept of their states. It is
/// proved, and does nothing when it runs.
#[tactic(auto, using(crate::proofs::Sleeping::sleeps_follow))]
pub fn waiting_processes_sleep()
    ensures { SleepsFollow }
{}
