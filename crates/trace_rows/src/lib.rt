//! Lines of traces.
#![tactic(auto)]

#[cfg(test)]
mod tests;
