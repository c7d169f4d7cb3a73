//! Room for what statements make.
use std::alloc::Global;
use step_data::{BreakList, Trans};

/// Room for the lists that statements make, which is taken where a list is longer than any before, and kept. What it has is of
/// no account.
#[derive(Drop)]
pub struct StatementRoom {
    pub(crate) transactions: Vec<Trans>,
    pub(crate) elements: BreakList,
}

impl StatementRoom {
    pub fn new(alloc: Global) -> StatementRoom {
        StatementRoom {
            transactions: Vec::new(alloc),
            elements: BreakList::new(alloc),
        }
    }
}
