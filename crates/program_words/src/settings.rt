use step_data::Options;
use step_schedule::Step;
use word_rules::Mode;

/// What accepted words ask for.
#[derive(Debug, Drop)]
pub struct Settings {
    pub mode: Mode,
    /// The name of the top in lower case; `ladder` in mode make.
    pub top: String,
    /// How many sections the generated ladder has; 0 in the other modes.
    pub size: u32,
    /// The numbers of the run: times in ticks of 1 ps, tolerances in units of 10^-12.
    pub options: Options,
    /// The first steps of a replay; none in the other modes.
    pub schedule: Vec<Step>,
}
