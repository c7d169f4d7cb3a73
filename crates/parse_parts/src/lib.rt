//! What declarations, statements and design units have in common: names, ranges and the parts of statements.
#![tactic(auto)]

mod breaks;
mod cases;
mod listed;
mod lists;
mod ranges;
mod statements;
mod tokens;
mod waveforms;

pub use breaks::break_elements;
pub use cases::choices;
pub use listed::{name_list, names_on};
pub use lists::{more_names, name, name_after, names};
pub use ranges::range;
pub use statements::{assertion, condition, ending, severity, string};
pub use waveforms::{delay_mechanism, maybe_delay, waveform};
