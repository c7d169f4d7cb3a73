//! The processes that resume.
ghost use Rattle.std.specs.Prelude.{◌≡◌, ◌<◌, ◌^◌, length, map, List};
ghost use Rattle.step_model.specs.System.{ProcessState};
ghost use Rattle.cycle_meaning.specs.Cycles.{resumes};
ghost use Rattle.kernel_world.specs.Acting.{context_of, world_of};
ghost use Rattle.resumption.specs.Sleeps.{sleeps_of, all_met};
ghost use Rattle.resumption.specs.Waits.{rows_of, AreWaits, contexts_of, AreThere, answered};

use crate::asleep::Asleep;
use crate::met::is_met;
use crate::waits::Waits;
use kernel_world::World;
use step_data::Refusal;

/// Looks at all processes in order.
fn look<S: Asleep>(
    waits: &Waits,
    world: &World,
    sleepers: &[S],
    resumed: &mut [bool],
) -> Result<(), Refusal>
    requires waits { AreWaits (context_of world.now).objects.processes waits.now }
    requires there { AreThere world.now (map (λ s. S.asleep s) sleepers.now) }
    requires count { length sleepers.now ≡ length (context_of world.now).objects.processes }
    requires few { length sleepers.now < 2 ^ 32 }
    requires room { length resumed.old ≡ length sleepers.now }
    ensures { answered result resumed.new ≡ all_met (contexts_of world.now) (world_of world.now) 0 (rows_of waits.now.rows.items) (map (λ s. S.asleep s) sleepers.now) }
{
    for k in 0..sleepers.len() {
        match is_met(waits, world, k as u32, &sleepers[k]) {
            Ok(answer) => resumed[k] = answer,
            Err(refusal) => return Err(refusal),
        }
    }
    Ok(())
}

/// Finds which processes resume in a cycle, the others stay asleep. The first condition in process order that has a fault is
/// refused.
#[tactic(auto, using(crate::proofs::Order::resumes_so))]
pub fn resume<S: Asleep>(
    waits: &Waits,
    world: &World,
    sleepers: &[S],
    resumed: &mut [bool],
) -> Result<(), Refusal>
    requires waits { AreWaits (context_of world.now).objects.processes waits.now }
    requires there { AreThere world.now (map (λ s. S.asleep s) sleepers.now) }
    requires count { length sleepers.now ≡ length (context_of world.now).objects.processes }
    requires few { length sleepers.now < 2 ^ 32 }
    requires room { length resumed.old ≡ length sleepers.now }
    ensures { (states : List ProcessState) → map (λ s. S.asleep s) sleepers.now ≡ sleeps_of (context_of world.now).objects.processes states → answered result resumed.new ≡ resumes (contexts_of world.now) (world_of world.now) 0 (context_of world.now).objects.processes states }
{
    look(waits, world, sleepers, resumed)
}
