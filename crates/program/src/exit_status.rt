//! The exit statuses of a program.
ghost use Rattle.std.specs.Prelude.{◌≡◌};
ghost use Rattle.program.specs.ExitStatus.{code_of};

/// The exit status of a program.
#[derive(Clone, Copy, PartialEq, Eq)]
pub enum ExitStatus {
    /// The program did what was asked. For a question, the answer is yes.
    Done,
    /// The answer is no.
    No,
    /// The input is refused: words, settings, a text or its size.
    Refused,
    /// Memory was refused, or a file, a stream, a socket or the clock failed.
    Failed,
}

impl ExitStatus {
    /// The number of the status for a shell.
    pub fn code(self) -> u8
        ensures { result ≡ code_of self }
    {
        match self {
            ExitStatus::Done => 0,
            ExitStatus::No => 1,
            ExitStatus::Refused => 2,
            ExitStatus::Failed => 3,
        }
    }
}
