//! What a run takes, made before its first line.
ghost use Rattle.std.specs.Prelude.{◌≡◌, ◌<◌, ◌^◌, [], length, IfOk, IfSome};
ghost use Rattle.step_data.specs.Options.{IsAllowed};
ghost use Rattle.step_model.specs.declared.kernel_stage.KernelStage.TheVariants.{Unstarted};
ghost use Rattle.lockstep_model.specs.Walk.{first_walk};
ghost use Rattle.run_place.specs.Budgets.{delta_budget, run_budget};
ghost use Rattle.timeline.specs.Notes.{no_counts};
ghost use Rattle.threaded_run.specs.Telling.{RunnerFits};

use engine_driver::Scratch;
use mixed_cycle::engine::Engine;
use std::alloc::{AllocError, Global};
use step_data::Options;
use step_model::{Design, Kernel, Stepper};
use threaded_run::{Ahead, Runner};
use timeline::Timeline;

/// A new engine with its room, a timeline on which nothing was begun, and the solver that runs ahead, where there is one.
#[derive(Drop)]
pub struct Prepared<D: Design, S: Stepper<D> + Drop, K: Kernel<D> + Drop> {
    pub timeline: Timeline<D>,
    pub runner: Option<Runner<S>>,
    pub engine: Engine<D, S, K>,
    pub scratch: Scratch,
}

/// The lengths of a point and of a frame.
fn lengths_of<D: Design, S: Stepper<D>>(stepper: &S) -> (usize, usize)
    requires { S.part stepper.now ≡ 0 }
    ensures unknowns { result.0 ≡ (D.system 0).unknowns }
    ensures frame { result.1 ≡ (D.system 0).frame_len }
{
    (stepper.unknowns(), stepper.frame_len())
}

/// A solver with its room, or none where no memory is found.
fn with_room<D: Design, S: Stepper<D> + Drop>(alloc: Global, stepper: S) -> Option<Runner<S>>
    requires { S.part stepper ≡ 0 }
    ensures { IfSome result (λ runner. RunnerFits (D.system 0) 0 (S.part runner.stepper) runner.ahead) }
{
    let (unknowns, frame_len) = lengths_of(&stepper);
    match Ahead::new(alloc, unknowns, frame_len) {
        Ok(ahead) => Some(Runner { stepper, ahead }),
        Err(_) => None,
    }
}

/// A solver that runs ahead with its room, or none where no memory is found.
fn runner_of<D: Design, S: Stepper<D> + Drop>(alloc: Global, worker: Option<S>) -> Option<Runner<S>>
    requires { IfSome worker (λ stepper. S.part stepper ≡ 0) }
    ensures { IfSome result (λ runner. RunnerFits (D.system 0) 0 (S.part runner.stepper) runner.ahead) }
{
    match worker {
        Some(stepper) => with_room(alloc, stepper),
        None => None,
    }
}

/// All that a run takes. The solvers and the kernel are those of the named design; the kernel isn't started yet.
pub fn prepare<D: Design, S: Stepper<D> + Drop, K: Kernel<D> + Drop>(
    alloc: Global,
    options: &Options,
    stepper: S,
    worker: Option<S>,
    kernel: K,
) -> Result<Prepared<D, S, K>, AllocError>
    requires part { S.part stepper ≡ 0 }
    requires worker { IfSome worker (λ ahead. S.part ahead ≡ 0) }
    requires stage { (K.state kernel).stage ≡ Unstarted }
    requires options { options.now ≡ (D.system 0).options }
    requires allowed { IsAllowed options.now }
    requires deltas { (D.system 0).deltas ≡ delta_budget }
    requires choices { (D.system 0).choices < 2 ^ 32 }
    requires cycles { (D.system 0).cycles ≡ run_budget }
    requires tries { (D.system 0).tries ≡ run_budget }
    ensures part { IfOk result (λ made. made.timeline.part ≡ 0) }
    ensures counts { IfOk result (λ made. made.timeline.line.journal.counts ≡ no_counts) }
    ensures entries { IfOk result (λ made. made.timeline.line.journal.entries ≡ []) }
    ensures reserved { IfOk result (λ made. made.timeline.line.journal.reserved ≡ 0) }
    ensures worker { IfOk result (λ made. IfSome made.runner (λ runner. RunnerFits (D.system 0) 0 (S.part runner.stepper) runner.ahead)) }
    ensures fresh { IfOk result (λ made. made.engine.walk ≡ first_walk (D.system 0)) }
    ensures room { IfOk result (λ made. length made.scratch.found.x ≡ (D.system 0).unknowns) }
    ensures empty { IfOk result (λ made. made.scratch.events ≡ []) }
{
    let (unknowns, frame_len) = lengths_of(&stepper);
    let timeline = Timeline::new(alloc, 0, options.ahead, options.stop, unknowns, frame_len)?;
    let scratch = Scratch::new(alloc, unknowns)?;
    let engine = Engine::new(stepper, kernel, *options, alloc)?;
    let runner = runner_of(alloc, worker);
    Ok(Prepared {
        timeline,
        runner,
        engine,
        scratch,
    })
}
