//! Worked rows on threads, with a gate that sets the order of both kernels.
#![tactic(auto)]

#[cfg(test)]
mod rows;
#[cfg(test)]
mod tests;
