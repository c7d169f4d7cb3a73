//! Replies to what an engine asks.
#![tactic(auto)]

pub mod reply;

pub use reply::Reply;
