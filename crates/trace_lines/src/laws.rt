//! What the lines are together.
ghost use Rattle.trace_lines.specs.Lines.{LinesAreTheTrace};

/// The lines one behind the other are the text of the trace. It is proved, and does nothing when it runs.
#[tactic(auto, using(crate::specs::LineLaws::lines_are_the_trace))]
pub fn lines_are_the_trace()
    ensures { LinesAreTheTrace }
{}
