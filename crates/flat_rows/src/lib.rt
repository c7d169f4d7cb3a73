//! The calls of a flat design, used to build one.
#![tactic(auto)]

#[cfg(test)]
mod build;
#[cfg(test)]
mod expressions;
#[cfg(test)]
mod lists;
#[cfg(test)]
mod process;
#[cfg(test)]
mod tests;
#[cfg(test)]
mod trees;
