//! Why words gave no command.
ghost use Rattle.std.specs.Prelude.{◌≡◌};
ghost use Rattle.command_words.specs.declared.fault.WordsFault.TheVariants.{NoMemory};
ghost use Rattle.command_words.specs.FaultText.{words_fault_text};

use std::alloc::AllocError;
use std::error::Error;
use std::fmt;

/// Why words gave no command.
#[derive(Clone, Copy, Debug)]
pub enum WordsFault {
    /// They are no command.
    Usage,
    /// Memory was refused, whatever they are.
    NoMemory,
}

impl WordsFault {
    /// Its text.
    fn why(self) -> &'static str
        ensures { result.now ≡ words_fault_text self }
    {
        match self {
            WordsFault::Usage => "usage",
            WordsFault::NoMemory => "out of memory",
        }
    }
}

impl fmt::Display for WordsFault {
    ghost use Rattle.std.specs.Prelude.{Some};

    ghost output = { λ fault. Some (words_fault_text fault) };

    fn fmt<W: fmt::Write>(&self, f: &mut fmt::Formatter<W>) -> fmt::Result {
        f.write_str(self.why())
    }
}

impl Error for WordsFault {}

impl From<AllocError> for WordsFault {
    ghost from_gives = { λ _ e. e ≡ NoMemory };

    fn from(_refused: AllocError) -> WordsFault {
        WordsFault::NoMemory
    }
}
