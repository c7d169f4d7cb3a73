//! Short texts of each kind, given as tokens, and what the parsers' public calls answer.
#![tactic(auto)]

#[cfg(test)]
mod concurrents;
#[cfg(test)]
mod declarations;
#[cfg(test)]
mod expressions;
#[cfg(test)]
mod files;
#[cfg(test)]
mod statements;
#[cfg(test)]
mod tokens;
