//! What a process makes of the lists in a statement: the branches of an if, the alternatives of a case, the elements of a
//! waveform and of a break.
#![tactic(auto)]

mod alternative;
mod branch;
mod driver;
mod executed;
mod fault;
mod wave;

pub use alternative::{alternative_number, alternatives_are_taken};
pub use branch::{branch_number, branches_are_taken};
pub use driver::{delay_kind, rejection, waveforms_rise};
pub use executed::executed_elements;
pub use fault::ListFault;
pub use wave::transactions;
