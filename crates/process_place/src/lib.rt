//! Where a process stands in its text, as a kernel keeps it, and what the process does next from there. All of it is
//! definitions for the contracts of a kernel; the functions here are laws, which are proved and do nothing when they run.
#![tactic(auto)]

ghost use Rattle.process_place.specs.Follows.{PlacesFollow};
ghost use Rattle.process_place.specs.Kept.{PlacesAreKept};

/// From a place in the text of a process, each next thing that counts, each statement and each run are those of the tasks
/// that are left there, and lead to places in the text.
#[tactic(auto, using(crate::proofs::Following::follows))]
pub fn places_follow_tasks()
    ensures { PlacesFollow }
{}

/// A place and variables that belong to the state of a process do so again where it waits again, from its first run on; and
/// the process runs from them as from its state.
#[tactic(auto, using(crate::proofs::Keeping::places_are_kept))]
pub fn places_are_kept()
    ensures { PlacesAreKept }
{}
