//! The calls of both sides once through their traits, for a plan that is known only when it runs.

ghost use Rattle.std.specs.Prelude.{◌≡◌, ◌++◌, OnOk};
ghost use Rattle.mini_models.specs.Mini.{RunsAs, SolvesAs, called_events};

use crate::kernel::Switch;
use crate::plan::Plan;
use crate::stepper::Level;
use fix_core::Tick;
use std::alloc::{AllocError, Global};
use std::marker::Brand;
use step_data::{EventList, Point, Ran};
use step_model::{Design, Kernel, Stepper};

fn start_and_cycle<D: Design>(
    alloc: Global,
    plan: &Plan,
    out: &mut EventList,
) -> Result<Ran, AllocError>
    requires solves { SolvesAs (D.system 0) plan.now }
    requires runs { RunsAs (D.system 0) plan.now }
    ensures events { OnOk result (out.new ≡ out.old ++ called_events plan.now) }
{
    let stepper: Level<D> = Level::new(plan, 0);
    let mut x = Point::new(alloc, stepper.unknowns())?;
    stepper.initial(&mut x);
    let mut kernel: Switch<D> = Switch::new(alloc, plan);
    kernel.start(&x, out)?;
    kernel.cycle(Tick::new(0).unwrap(), 1, &x, true, out)
}

/// The events of the start and of the change of DOMAIN at time 0.
pub fn first_events(alloc: Global, plan: &Plan, out: &mut EventList) -> Result<Ran, AllocError>
    ensures events { OnOk result (out.new ≡ out.old ++ called_events plan.now) }
{
    start_and_cycle::<Brand>(alloc, plan, out)
}
