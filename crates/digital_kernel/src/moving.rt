//! The start and one cycle of the parts of a kernel.
ghost use Rattle.std.specs.Prelude.{◌≡◌, ◌≤◌, [], length, IfSome};
ghost use Rattle.flat_design.specs.Order.{unknown_count};
ghost use Rattle.step_model.specs.declared.kernel_stage.KernelStage.TheVariants.{Going};
ghost use Rattle.cycle_meaning.specs.Cycles.{start, cycle, next_time};
ghost use Rattle.design_rules.specs.Design.{IsDesign};
ghost use Rattle.run_laws.specs.Safe.{IsSafe};
ghost use Rattle.kernel_state.specs.State.{objects_of, state_of};
ghost use Rattle.digital_kernel.specs.Handing.{HandsOn, stage_left};
ghost use Rattle.digital_kernel.specs.Runs.{IsUnstarted, IsCycling};

use crate::ending::hand_over;
use fix_core::Tick;
use kernel_state::KernelParts;
use run_types::{states_stay_safe, worlds_have_values_of_their_types};
use std::alloc::{AllocError, Global};
use step_data::{EventList, Point, Ran};

/// The start, whose events go behind those of a list.
pub fn start(
    alloc: Global,
    parts: &mut KernelParts,
    x: &Point,
    out: &mut EventList,
) -> Result<Ran, AllocError>
    requires design { IsDesign (objects_of parts.old) }
    requires own { parts.old.events ≡ [] }
    requires unstarted { IsUnstarted parts.old }
    requires point { length x.now ≡ unknown_count (objects_of parts.old) }
    ensures hands { HandsOn (start (objects_of parts.old) x.now) parts.new out.old out.new result }
    ensures safe { stage_left result ≡ Going → IsSafe (objects_of parts.new) (state_of parts.new) }
    ensures objects { objects_of parts.new ≡ objects_of parts.old }
    ensures own { parts.new.events ≡ [] }
{
    worlds_have_values_of_their_types();
    states_stay_safe();
    let ended = kernel_cycle::start(parts, x);
    hand_over(alloc, parts, ended, out)
}

/// One cycle, whose events go behind those of a list.
pub fn cycle(
    alloc: Global,
    parts: &mut KernelParts,
    t: Tick,
    n: u32,
    x: &Point,
    to_time: bool,
    out: &mut EventList,
) -> Result<Ran, AllocError>
    requires design { IsDesign (objects_of parts.old) }
    requires own { parts.old.events ≡ [] }
    requires cycling { IsCycling parts.old }
    requires next { IfSome (next_time (state_of parts.old)) (λ u. t ≤ u) }
    requires point { length x.now ≡ unknown_count (objects_of parts.old) }
    ensures hands { HandsOn (cycle (objects_of parts.old) (state_of parts.old) t n x.now to_time) parts.new out.old out.new result }
    ensures safe { stage_left result ≡ Going → IsSafe (objects_of parts.new) (state_of parts.new) }
    ensures objects { objects_of parts.new ≡ objects_of parts.old }
    ensures own { parts.new.events ≡ [] }
{
    let _ = t.get();
    worlds_have_values_of_their_types();
    states_stay_safe();
    let ended = kernel_cycle::cycle(parts, t, n, x, to_time);
    hand_over(alloc, parts, ended, out)
}
