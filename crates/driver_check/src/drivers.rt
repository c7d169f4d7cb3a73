//! Signals that several processes assign (IEEE 1076, 6.4.2.3: an unresolved signal has one driver).
ghost use Rattle.std.specs.Prelude.{◌≡◌, length, replicate, IfOk};
ghost use Rattle.std.specs.List.{fold, slice_get};
ghost use Rattle.unit_meaning.specs.Drivers as spec;
ghost use Rattle.driver_check.specs.declared.count.Drivers.TheVariants.{Zero};
ghost use Rattle.driver_check.specs.Counts as count;
ghost use Rattle.driver_check.specs.Refused.{unless};

use crate::count::{Drivers, count_drivers, first_several};
use flat_design::{Objects, Signal};
use sqlite_items::Items;
use std::alloc::{AllocError, Global};
use unit_meaning::Refusal;

/// How many processes assign each signal.
fn driver_counts(alloc: Global, objects: &Objects) -> Result<Vec<Drivers>, AllocError>
    ensures { IfOk result (λ counts. counts.items ≡ fold count.with_process (replicate (length objects.now.signals) Zero) objects.now.processes) }
{
    let mut counts = vec![in alloc; Drivers::Zero; objects.signals.len()]?;
    count_drivers(objects.processes.as_slice(), counts.as_mut_slice());
    Ok(counts)
}

/// The first signal that two processes assign.
#[tactic(auto, using(crate::proofs::Counted::counted))]
pub fn doubly_driven(alloc: Global, objects: &Objects) -> Result<Option<usize>, AllocError>
    ensures { IfOk result (λ found. found ≡ spec.doubly_driven objects.now) }
{
    let counts = driver_counts(alloc, objects)?;
    Ok(first_several(counts.as_slice()))
}

fn signal_path(alloc: Global, signals: &[Signal], signal: usize) -> Result<Items<u8>, AllocError>
    ensures { IfOk result (λ path. path ≡ spec.signal_path (slice_get signals.now signal)) }
{
    match signals.get(signal) {
        Some(signal) => Items::from_slice(alloc, signal.path.as_slice()),
        None => Ok(Items::new(alloc)),
    }
}

/// Why a design isn't flattened for its drivers: two processes assign a signal.
pub fn driven(alloc: Global, objects: &Objects) -> Result<Option<Refusal>, AllocError>
    ensures { IfOk result (λ refusal. spec.driven objects.now (spec.doubly_driven objects.now) ≡ unless refusal objects.now) }
{
    match doubly_driven(alloc, objects)? {
        Some(signal) => {
            let path = signal_path(alloc, objects.signals.as_slice(), signal)?;
            Ok(Some(Refusal::MultipleDrivers(path)))
        }
        None => Ok(None),
    }
}
