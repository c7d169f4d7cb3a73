//! The values that the start and cycles leave are those of the design: signals, pending transactions and variables have their
//! types, and break elements are elements of the design. The functions here are laws, which are proved and do nothing when
//! they run.
#![tactic(auto)]

ghost use Rattle.run_laws.specs.Safe.{CycleIsPrintable, CycleIsSafe, NextIsLater, StartIsPrintable, StartIsSafe};
ghost use Rattle.run_laws.specs.Values.{BegunFits, FirstFits, FirstFrameFits, FrameFits, KeptFits, WorldStays};

/// The world in which processes act has values of their types at the start and at the beginning of each cycle, and so have the
/// values that are kept of it and the frame that equations read.
pub fn worlds_have_values_of_their_types()
    ensures first { FirstFits }
    ensures begun { BegunFits }
    ensures stays { WorldStays }
    ensures kept { KeptFits }
    ensures frame { FrameFits }
    ensures first_frame { FirstFrameFits }
{}

/// The start leaves a state from which every cycle can be run, and so does every cycle from such a state.
pub fn states_stay_safe()
    ensures start { StartIsSafe }
    ensures cycle { CycleIsSafe }
    ensures next { NextIsLater }
{}

/// The events of the start and of a cycle can be printed, however it ends.
pub fn events_can_be_printed()
    ensures start { StartIsPrintable }
    ensures cycle { CycleIsPrintable }
{}
