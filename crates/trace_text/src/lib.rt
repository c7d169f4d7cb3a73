//! The text of a trace, line by line: definitions for the contracts of whoever writes or reads one. The function here is
//! a law.
#![tactic(auto)]

ghost use Rattle.trace_text.specs.Worked.{WorkedLines};

/// Lines of traces, written out. It is proved, and does nothing when it runs.
#[tactic(auto, using(crate::proofs::WorkedText::lines))]
pub fn worked_lines()
    ensures { WorkedLines }
{}
