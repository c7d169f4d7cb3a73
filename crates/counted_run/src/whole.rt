//! A whole run.
ghost use Rattle.std.specs.Prelude.{◌≡◌, ◌<◌, ◌^◌, IfOk};
ghost use Rattle.step_data.specs.Options.{IsAllowed};
ghost use Rattle.step_model.specs.declared.kernel_stage.KernelStage.TheVariants.{Unstarted};
ghost use Rattle.lockstep_model.specs.Lockstep.{lockstep};
ghost use Rattle.lockstep_model.specs.Walk.{first_walk};
ghost use Rattle.run_place.specs.Budgets.{delta_budget, run_budget};
ghost use Rattle.run_counts.specs.Counts.{counted};

use crate::drive::drive;
use mixed_cycle::engine::Engine;
use run_counts::{CountedRun, EventCounts, RunCounts, runs_have_few_moves};
use std::alloc::{AllocError, Global};
use step_data::{EventList, Options};
use step_model::{Design, Kernel, Stepper};

/// Makes a run that is before its start.
fn count_works<D: Design, S: Stepper<D>, K: Kernel<D>>(
    alloc: Global,
    engine: &mut Engine<D, S, K>,
) -> Result<CountedRun, AllocError>
    requires walk { engine.old.walk ≡ first_walk (D.system 0) }
    requires cycles { (D.system 0).cycles ≡ run_budget }
    requires tries { (D.system 0).tries ≡ run_budget }
    ensures { IfOk result (λ run. run ≡ counted (lockstep (D.system 0))) }
{
    runs_have_few_moves();
    let mut out = EventList::new(alloc);
    let mut events = EventCounts {
        points: 0,
        signals: 0,
        crossings: 0,
    };
    let end = drive(engine, &mut out, &mut events)?;
    let attempts = engine.own();
    Ok(CountedRun {
        counts: RunCounts { events, attempts },
        end,
    })
}

/// Runs a design in lockstep with these options, and tells the numbers of its run and its end. The solver and the kernel are
/// those of the named design; the kernel isn't started yet.
pub fn count_in_lockstep<D: Design, S: Stepper<D> + Drop, K: Kernel<D> + Drop>(
    alloc: Global,
    options: &Options,
    stepper: S,
    kernel: K,
) -> Result<CountedRun, AllocError>
    requires part { S.part stepper ≡ 0 }
    requires stage { (K.state kernel).stage ≡ Unstarted }
    requires options { options.now ≡ (D.system 0).options }
    requires allowed { IsAllowed options.now }
    requires deltas { (D.system 0).deltas ≡ delta_budget }
    requires choices { (D.system 0).choices < 2 ^ 32 }
    requires cycles { (D.system 0).cycles ≡ run_budget }
    requires tries { (D.system 0).tries ≡ run_budget }
    ensures { IfOk result (λ run. run ≡ counted (lockstep (D.system 0))) }
{
    let mut engine = Engine::new(stepper, kernel, *options, alloc)?;
    count_works(alloc, &mut engine)
}
