ghost use Rattle.std.specs.Prelude.{◌≡◌};
ghost use Rattle.program_output.specs.Output.{code_of};

/// How a call of the program ends.
#[derive(Clone, Copy, Debug, PartialEq, Eq)]
pub enum Status {
    /// The stop time is reached.
    Reached,
    /// The text gives no flat design.
    DesignRefused,
    WordsRefused,
    /// The run ended in a refusal.
    RunRefused,
    ReadFault,
    WriteFault,
    Memory,
    /// The text has more bytes than a text may have.
    TooLong,
}

impl Status {
    /// The number with which the program exits.
    pub fn code(self) -> u8
        ensures { result ≡ code_of self }
    {
        match self {
            Status::Reached => 0,
            Status::DesignRefused => 1,
            Status::WordsRefused => 2,
            Status::RunRefused => 3,
            Status::ReadFault => 4,
            Status::WriteFault => 5,
            Status::Memory => 6,
            Status::TooLong => 7,
        }
    }
}
