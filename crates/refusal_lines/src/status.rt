//! What a call of the program came to.
ghost use Rattle.std.specs.Prelude.{◌≡◌};
ghost use Rattle.refusal_lines.specs.Status.{status_number};

/// What a call of the program came to. The number is the process's exit status.
#[derive(Clone, Copy, PartialEq, Eq, Debug)]
pub enum Status {
    /// The machine halted, the meaning halts or waits, or what was to be put was put and what was to be said
    /// was written.
    Done,
    /// The machine failed, or the meaning does.
    MachineFailed,
    /// The machine neither halted nor failed within its steps or its weight, or the meaning ran out of fuel.
    StepsUsed,
    /// The words are no command.
    Usage,
    /// A file could not be read.
    ReadFault,
    /// The text could not be written, or the file of `--out` could not be put.
    WriteFault,
    /// Memory was refused.
    NoMemory,
    /// A file has more than [`LONGEST_FILE`](file_plans::LONGEST_FILE) bytes.
    TooLong,
    /// An assembler text spells no component.
    AsmRefused,
    /// A source is refused: for its text, for a name, for its tokens, or for the size of what it is compiled
    /// to.
    SourceRefused,
    /// The bytes of a file are no component, no image, no feed, or no script.
    FileRefused,
    /// A rule of a part, or of the parts together, is broken.
    RuleBroken,
    /// A text is no trace of a run.
    AuditRefused,
}

impl Status {
    /// The exit status: 0 to 2 after a run or a meaning, 0 also for what was written, 10 to 18 and 20
    /// else.
    pub fn number(self) -> u8
        ensures { result ≡ status_number self }
    {
        match self {
            Status::Done => 0,
            Status::MachineFailed => 1,
            Status::StepsUsed => 2,
            Status::Usage => 10,
            Status::ReadFault => 11,
            Status::WriteFault => 12,
            Status::NoMemory => 13,
            Status::TooLong => 14,
            Status::AsmRefused => 15,
            Status::SourceRefused => 16,
            Status::FileRefused => 17,
            Status::RuleBroken => 18,
            Status::AuditRefused => 20,
        }
    }
}
