//! Laws of the runs of processes, of the start and of cycles, on which the digital kernel stands. All of it is definitions:
//! the crates above prove them.
#![tactic(auto)]
