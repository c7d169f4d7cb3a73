//! What the processes of a design act on: its signals, thresholds, drivers, breaks and events, and the variables of the process
//! that runs.
#![tactic(auto)]

mod begin;
mod effects;
mod left;
mod reading;
mod reads;
mod start;
mod world;

pub use world::World;
