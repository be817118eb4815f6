//! How commands end.
ghost use Rattle.std.specs.Prelude.{◌≡◌};
ghost use Rattle.command_runs.specs.Output.{code_of};

/// How a command ended.
#[derive(Clone, Copy, Debug, PartialEq, Eq)]
pub enum Outcome {
    Done,
    /// Answered, but negatively: a request whose reply is not 200, a check with failures.
    Negative,
    /// The words are no command line.
    FaultyWords,
    /// The application's files could not be read.
    FilesUnread,
    /// The output could not be written.
    WriteFault,
    /// Want of memory.
    Memory,
    /// The application is beyond a limit, or its configuration or its names have a fault.
    Refused,
    /// The command is not built yet.
    NotBuilt,
}

impl Outcome {
    /// The program's exit status.
    pub fn code(self) -> u8
        ensures { result ≡ code_of self }
    {
        match self {
            Outcome::Done => 0,
            Outcome::Negative => 1,
            Outcome::FaultyWords => 2,
            Outcome::FilesUnread => 3,
            Outcome::WriteFault => 4,
            Outcome::Memory => 5,
            Outcome::Refused => 6,
            Outcome::NotBuilt => 11,
        }
    }
}
