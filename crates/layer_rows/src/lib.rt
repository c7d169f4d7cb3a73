//! Rows with answers worked by hand for the lower layers, by their public calls.
#![tactic(auto)]

#[cfg(test)]
mod kernel;
#[cfg(test)]
mod models;
#[cfg(test)]
mod slopes;
#[cfg(test)]
mod sparse;
#[cfg(test)]
mod spelled;
#[cfg(test)]
mod tokens;
