//! How a run over lines ends.

/// How a run over lines ends.
#[derive(Clone, Copy, Debug, PartialEq, Eq)]
pub enum LinesStatus {
    /// Each line was answered, and all answers have been flushed.
    Done,
    /// The text goes on after 2^64 - 1 reads.
    TooLong,
    /// The words are no command.
    Usage,
    /// The source failed.
    ReadFault,
    /// The sink failed.
    WriteFault,
    /// Memory ran out.
    Memory,
}

impl LinesStatus {
    ghost use Rattle.std.specs.Prelude.{◌≡◌};
    ghost use Rattle.dns_lines.specs.Runs.{code_of};

    /// The code that a process ends with: that of `run` for the same status.
    pub fn code(&self) -> u8
        ensures { result ≡ code_of self.now }
    {
        match self {
            LinesStatus::Done => 0,
            LinesStatus::TooLong => 4,
            LinesStatus::Usage => 5,
            LinesStatus::ReadFault => 6,
            LinesStatus::WriteFault => 7,
            LinesStatus::Memory => 8,
        }
    }
}
