//! Concurrent signal assignments that are read make processes of a well-formed design. The function here is a law, which is proved
//! and does nothing when it runs.
#![tactic(auto)]

ghost use Rattle.wave_laws.specs.Waves.{AssignmentsMakeProcesses};

/// The process that a concurrent signal assignment stands for is one of a well-formed design.
pub fn assignments_make_processes()
    ensures { AssignmentsMakeProcesses }
{}
