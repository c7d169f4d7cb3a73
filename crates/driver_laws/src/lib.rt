//! A process that is read has one driver of each signal that it assigns. The function here is a law, which is proved and does
//! nothing when it runs.
#![tactic(auto)]

ghost use Rattle.driver_laws.specs.Driven.{StatementsDriveOnce};

/// Each process that a concurrent statement makes names each of its drivers once.
pub fn statements_drive_once()
    ensures { StatementsDriveOnce }
{}
