//! What a replay is: the steps of a schedule and then the engine's to the end, with its report; and the laws by which a loop makes
//! them.
#![tactic(auto)]
