//! What a call of the program came to.
ghost use Rattle.std.specs.Prelude.{◌≡◌};
ghost use Rattle.draw_call.specs.Answers.{draw_status_number};

/// What a call of the program came to. The number is the process's exit status.
#[derive(Clone, Copy, PartialEq, Eq, Debug)]
pub enum DrawStatus {
    /// The picture was put, and `ok` was written.
    Done,
    /// The words are no command.
    Usage,
    /// The file of `--feed` could not be read.
    ReadFault,
    /// The file of `--out` could not be put, or the line could not be written.
    WriteFault,
    /// Memory was refused.
    NoMemory,
    /// The text has more bytes or lines than are drawn.
    TooLong,
    /// The text is no trace of a run.
    AuditRefused,
}

impl DrawStatus {
    /// The exit status: 0, 10 to 14, or 20.
    pub fn number(self) -> u8
        ensures { result ≡ draw_status_number self }
    {
        match self {
            DrawStatus::Done => 0,
            DrawStatus::Usage => 10,
            DrawStatus::ReadFault => 11,
            DrawStatus::WriteFault => 12,
            DrawStatus::NoMemory => 13,
            DrawStatus::TooLong => 14,
            DrawStatus::AuditRefused => 20,
        }
    }
}
