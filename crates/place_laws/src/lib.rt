//! A process is what a well-formed design asks of it where each of its statements is so at its place. The functions here are laws,
//! which are proved and do nothing when they run.
#![tactic(auto)]

ghost use Rattle.place_laws.specs.Places.{DriversAreFound, NoneStands, OneMoreStands, WholeStands};

/// The places of a list of statements are right if each is found to be so when it is added.
pub fn places_are_found()
    ensures whole { WholeStands }
    ensures none { NoneStands }
    ensures one_more { OneMoreStands }
    ensures drivers { DriversAreFound }
{}
