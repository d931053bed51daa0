//! How the program ended.

ghost use Rattle.std.specs.Prelude.{◌≡◌};
ghost use Rattle.aerie.specs.Program.{number_of_status};

/// How the program ended.
#[derive(Clone, Copy)]
pub enum ExitStatus {
    /// All that was asked for was done, and all was written.
    Done,
    /// The words are not in the grammar.
    Words,
    /// The session is refused.
    Refused,
    /// A read failed.
    ReadFailed,
    /// A write failed.
    WriteFailed,
    /// There was not enough memory.
    OutOfMemory,
}

impl ExitStatus {
    /// The number that says so to whoever called the program.
    pub fn number(self) -> u8
        ensures { result ≡ number_of_status self }
    {
        match self {
            ExitStatus::Done => 0,
            ExitStatus::Words => 2,
            ExitStatus::Refused => 3,
            ExitStatus::ReadFailed => 4,
            ExitStatus::WriteFailed => 5,
            ExitStatus::OutOfMemory => 6,
        }
    }
}
