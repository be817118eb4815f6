//! How commands end.
ghost use Rattle.std.specs.Prelude.{◌≡◌};
ghost use Rattle.top_calls.specs.Output.{code_of};

use outside::FilePath;

/// What is not built yet.
#[derive(Drop)]
pub enum Unbuilt {
    Command,
    /// A target that is not `/CONTROLLER/ACTION`, both of letters `a` to `z`.
    Target,
    /// An application beyond a limit.
    Size,
    /// The file of this path, which is no controller of the one form that is read today.
    File(FilePath),
}

/// How a command ended.
#[derive(Drop)]
pub enum Outcome {
    Done,
    /// Answered, but negatively: a request whose reply is not 200.
    Negative,
    /// The words are no command line.
    FaultyWords,
    /// The application's files could not be read.
    FilesUnread,
    /// The output could not be written.
    WriteFault,
    /// Want of memory.
    Memory,
    /// The application is beyond a limit, or its configuration or its names have a fault.
    Refused,
    NotBuilt(Unbuilt),
}

impl Outcome {
    /// The program's exit status.
    pub fn code(&self) -> u8
        ensures { result ≡ code_of self.now }
    {
        match self {
            Outcome::Done => 0,
            Outcome::Negative => 1,
            Outcome::FaultyWords => 2,
            Outcome::FilesUnread => 3,
            Outcome::WriteFault => 4,
            Outcome::Memory => 5,
            Outcome::Refused => 6,
            Outcome::NotBuilt(_) => 11,
        }
    }
}
