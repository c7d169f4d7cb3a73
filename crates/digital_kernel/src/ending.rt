//! How a start or a cycle is handed on.
ghost use Rattle.std.specs.Prelude.{◌≡◌, []};
ghost use Rattle.step_model.specs.System.{CycleOutcome};
ghost use Rattle.kernel_cycle.specs.Ending.{CycleEnds};
ghost use Rattle.kernel_state.specs.State.{objects_of};
ghost use Rattle.digital_kernel.specs.Handing.{HandsOn, IsAnswer, stage_left};

use event_handing::hand_on;
use kernel_state::KernelParts;
use statement_lists::ListFault;
use std::alloc::{AllocError, Global};
use step_data::{EventList, Ran};
use step_model::KernelStage;

/// The answer of a start or a cycle that ended so.
fn answer_of(ended: Result<(), ListFault>, broke: bool) -> Result<Ran, AllocError>
    ensures { IsAnswer ended broke result }
{
    match ended {
        Ok(()) => Ok(Ran::Done { broke }),
        Err(ListFault::Refused(refusal)) => Ok(Ran::Refused(refusal)),
        Err(ListFault::Memory) => Err(AllocError),
    }
}

/// Hands on what a start or a cycle gave: its events go behind those of a list.
pub fn hand_over(
    alloc: Global,
    parts: &mut KernelParts,
    ended: Result<(), ListFault>,
    out: &mut EventList,
) -> Result<Ran, AllocError>
    requires own { parts.old.events ≡ [] }
    ensures hands { (e : CycleOutcome) → CycleEnds e parts.old ended → HandsOn e parts.new out.old out.new result }
    ensures objects { objects_of parts.new ≡ objects_of parts.old }
    ensures own { parts.new.events ≡ [] }
{
    parts.world.exchange_events(&mut parts.events);
    hand_on(alloc, &mut parts.events, out)?;
    answer_of(ended, parts.world.has_broken())
}

/// Where the kernel stands behind it.
pub fn stage_left(ran: &Result<Ran, AllocError>) -> KernelStage
    ensures { result ≡ stage_left ran.now }
{
    match ran {
        Ok(Ran::Done { .. }) => KernelStage::Going,
        Ok(Ran::Refused(refusal)) => KernelStage::Ended(*refusal),
        Err(_) => KernelStage::Lost,
    }
}
