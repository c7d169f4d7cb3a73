//! Which processes resume in a cycle, where only those are looked at whose timeout is due, or of whose signals one had an event.
#![tactic(auto)]

ghost use Rattle.std.specs.Prelude.{◌≡◌, ◌<◌, ℕ, true, false, length, map, replicate, slice_index_or, List, OnOk};
ghost use Rattle.std.specs.List.{All, Contains};
ghost use Rattle.std.specs.List.Sorted.{IsStrictlyIncreasing};
ghost use Rattle.step_model.specs.System.{ProcessState};
ghost use Rattle.cycle_meaning.specs.Cycles.{resumes};
ghost use Rattle.kernel_world.specs.Acting.{context_of, world_of};
ghost use Rattle.resumption.specs.Sleeps.{sleeps_of, all_met};
ghost use Rattle.resumption.specs.Waits.{rows_of, AreWaits, contexts_of, AreThere, answered};
ghost use Rattle.resumption_calls.specs.Calls.{OthersAreQuiet, QuietWaitsAreNotMet, CallsSuffice};

use kernel_world::World;
use resumption::{Asleep, Waits, is_met};
use step_data::Refusal;

/// A wait whose timeout isn't due and none of whose signals had an event isn't met. It is proved, and does nothing when it runs.
pub fn quiet_waits_are_not_met()
    ensures { QuietWaitsAreNotMet }
{}

/// Where those processes are called whose timeout is due, and those in the lists of the signals that had an event, the others are
/// quiet. It is proved, and does nothing when it runs.
#[tactic(auto, using(crate::proofs::Reaching::calls_suffice))]
pub fn calls_suffice()
    ensures { CallsSuffice }
{}

/// Puts the numbers of the processes that are called in order, each once, without memory.
pub fn put_in_order(called: &mut Vec<u32>)
    ensures rises { IsStrictlyIncreasing called.new.items }
    ensures keeps { (j : ℕ) → Contains called.old.items j → Contains called.new.items j }
    ensures adds_none { (j : ℕ) → Contains called.new.items j → Contains called.old.items j }
{
    called.sort_unstable();
    called.dedup();
}

/// Looks at the processes that are called, in order.
fn look<S: Asleep>(
    waits: &Waits,
    world: &World,
    sleepers: &[S],
    called: &[u32],
    resumed: &mut [bool],
) -> Result<(), Refusal>
    requires waits { AreWaits (context_of world.now).objects.processes waits.now }
    requires there { AreThere world.now (map (λ s. S.asleep s) sleepers.now) }
    requires count { length sleepers.now ≡ length (context_of world.now).objects.processes }
    requires rises { IsStrictlyIncreasing called.now }
    requires within { All (λ k. k < length sleepers.now) called.now }
    requires quiet { OthersAreQuiet (contexts_of world.now) (world_of world.now) (rows_of waits.now.rows.items) (map (λ s. S.asleep s) sleepers.now) called.now }
    requires room { resumed.old ≡ replicate (length sleepers.now) false }
    ensures found { answered result resumed.new ≡ all_met (contexts_of world.now) (world_of world.now) 0 (rows_of waits.now.rows.items) (map (λ s. S.asleep s) sleepers.now) }
    ensures marked { OnOk result ((k : ℕ) → slice_index_or resumed.new k false ≡ true → Contains called.now k) }
{
    for k in called {
        match is_met(waits, world, *k, &sleepers[*k as usize]) {
            Ok(answer) => resumed[*k as usize] = answer,
            Err(refusal) => return Err(refusal),
        }
    }
    Ok(())
}

/// Finds which processes resume in a cycle, where those that aren't called stay asleep anyhow: none of them is marked. The first
/// condition in process order that has a fault is refused.
#[tactic(auto, using(resumption::proofs::Order::resumes_so))]
pub fn resume_called<S: Asleep>(
    waits: &Waits,
    world: &World,
    sleepers: &[S],
    called: &[u32],
    resumed: &mut [bool],
) -> Result<(), Refusal>
    requires waits { AreWaits (context_of world.now).objects.processes waits.now }
    requires there { AreThere world.now (map (λ s. S.asleep s) sleepers.now) }
    requires count { length sleepers.now ≡ length (context_of world.now).objects.processes }
    requires rises { IsStrictlyIncreasing called.now }
    requires within { All (λ k. k < length sleepers.now) called.now }
    requires quiet { OthersAreQuiet (contexts_of world.now) (world_of world.now) (rows_of waits.now.rows.items) (map (λ s. S.asleep s) sleepers.now) called.now }
    requires room { resumed.old ≡ replicate (length sleepers.now) false }
    ensures found { (states : List ProcessState) → map (λ s. S.asleep s) sleepers.now ≡ sleeps_of (context_of world.now).objects.processes states → answered result resumed.new ≡ resumes (contexts_of world.now) (world_of world.now) 0 (context_of world.now).objects.processes states }
    ensures marked { OnOk result ((k : ℕ) → slice_index_or resumed.new k false ≡ true → Contains called.now k) }
{
    look(waits, world, sleepers, called, resumed)
}
