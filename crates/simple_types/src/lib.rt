//! Reading sequential statements that hold no others.
#![tactic(auto)]

mod drafts;
mod finished;
mod reports;
mod simple;
mod spots;
mod waits;

pub use drafts::{add_driver, add_parameter, following, number_of};
pub use finished::{
    assert_statement, break_statement, exit_statement, next_statement, report_statement,
    variable_statement, wait_statement,
};
pub use reports::{assertion_parts, assertion_text};
pub use simple::signal_statement;
pub use spots::{enter_loop, leave_loop, looping, way_to, within_loop};
