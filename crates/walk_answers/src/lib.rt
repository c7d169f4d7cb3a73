//! What calls of the walk over the instances answer.
#![tactic(auto)]

mod body;
mod settings;
mod stop;

pub use body::{Body, body_of};
pub use settings::setting_with;
pub use stop::Stop;
