//! Well-formed flat designs: what elaboration promises of its result, and solver, kernel and engine may ask. All of it is
//! definitions; the functions here are laws, which are proved and do nothing when they run.
#![tactic(auto)]

ghost use Rattle.design_rules.specs.Building.{MoreWaitsAreRight, NoneIsAllowed, NoneIsRight, NoneIsSafe, OneMoreIsAllowed, OneMoreIsRight, OneMoreIsSafe, WholeIsAllowed, WholeIsRight, WholeIsSafe};
ghost use Rattle.design_rules.specs.Rows.{ChosenAreBranches, RowsAreCounted};
ghost use Rattle.design_rules.specs.Worked.{WorkedDesign};

/// The statements of a process are allowed if each is found to be so when it is added.
pub fn statements_are_found_allowed()
    ensures whole { WholeIsAllowed }
    ensures none { NoneIsAllowed }
    ensures one_more { OneMoreIsAllowed }
{}

/// So are the ways to its waits found to be right.
pub fn ways_are_found_right()
    ensures whole { WholeIsRight }
    ensures none { NoneIsRight }
    ensures one_more { OneMoreIsRight }
    ensures more_waits { MoreWaitsAreRight }
{}

/// And the parameters of its loops to be safe.
pub fn parameters_are_found_safe()
    ensures whole { WholeIsSafe }
    ensures none { NoneIsSafe }
    ensures one_more { OneMoreIsSafe }
{}

/// Each equation set of a well-formed design, with the branches that were chosen, has as many rows as there are unknowns.
pub fn rows_are_counted()
    ensures rows { RowsAreCounted }
    ensures branches { ChosenAreBranches }
{}

/// There is a well-formed design with a process that waits in a loop, assigns a signal and breaks.
pub fn worked_design()
    ensures { WorkedDesign }
{}
