//! The walk over the instances.
use elab_meaning::Fault;
use flat_design::{Objects, Threshold};
use sqlite_items::Items;

/// What a design may have no more of.
#[derive(Clone, Copy, Debug, PartialEq, Eq)]
pub enum Limit {
    Unknowns,
    Frame,
    Signals,
    Processes,
    Thresholds,
    Instances,
}

/// Why a design isn't flattened. Names and paths are texts.
#[derive(Drop)]
pub enum Refusal {
    /// A rule is broken with the values of the generics.
    Broken(Fault),
    /// An entity isn't there, or has no (such) architecture.
    NoTop(Items<u8>),
    PortMismatch(Items<u8>),
    MultipleDrivers(Items<u8>),
    /// An entity contains an instance of itself.
    Recursive(Items<u8>),
    TooMany(Limit),
}

/// The flat design so far, and what is counted of whole instances before the walk numbers it: dots, thresholds and
/// processes. The quantities that are actuals of ports of mode out stand by the instance in which they are named.
#[derive(Drop)]
pub struct Site {
    pub objects: Objects,
    pub dots: Items<u32>,
    pub thresholds: Items<Threshold>,
    pub processes: u32,
    pub used: Items<(u32, u32)>,
}
