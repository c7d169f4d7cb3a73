//! A flat design with its options as the system that a run is defined over, and the trace of its run: definitions for the
//! contracts of whoever runs a design.
#![tactic(auto)]
