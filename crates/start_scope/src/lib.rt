//! What each unit of a file begins with: the predefined names round it, and the first objects.
#![tactic(auto)]

mod beginning;
mod predefined;

pub use beginning::{first_book, first_objects, new_book, no_notes};
pub use predefined::start_of;
