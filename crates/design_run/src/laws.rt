//! What the lines of a run are together.
ghost use Rattle.design_run.specs.Lines.{LinesOfRun};

/// The lines of a run one behind the other are its trace. It is proved, and does nothing when it runs.
#[tactic(auto, using(trace_lines::specs::LineLaws::lines_are_the_trace))]
pub fn lines_of_run()
    ensures { LinesOfRun }
{}
