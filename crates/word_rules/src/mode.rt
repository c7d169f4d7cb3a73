ghost use Rattle.std.specs.Prelude.{◌≡◌};
ghost use Rattle.word_rules.specs.Words.{mode_named, is_run};

/// What the program does.
#[derive(Clone, Copy, Debug, PartialEq, Eq)]
pub enum Mode {
    /// Reads a design and simulates it, the analogue kernel ahead of the digital one on a thread of its own.
    Run,
    /// Reads a design and simulates it, the analogue kernel in step with the digital one.
    Lockstep,
    /// As lockstep, with attempts saved ahead in the order of a schedule, and a report of them.
    Replay,
    /// Simulates a generated design, and writes how many lines of each kind its trace has.
    Make,
}

/// The mode of this name.
#[tactic(auto, unfolding(crate::specs::Words::mode_named))]
pub fn mode_named(name: &str) -> Option<Mode>
    ensures { result ≡ mode_named name.now }
{
    if name == "run" {
        Some(Mode::Run)
    } else if name == "lockstep" {
        Some(Mode::Lockstep)
    } else if name == "replay" {
        Some(Mode::Replay)
    } else if name == "make" {
        Some(Mode::Make)
    } else {
        None
    }
}

/// Whether the kernels run on threads.
#[tactic(auto, unfolding(crate::specs::Words::is_run))]
pub fn is_run(mode: Mode) -> bool
    ensures { result ≡ is_run mode }
{
    matches!(mode, Mode::Run)
}
