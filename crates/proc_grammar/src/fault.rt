//! Why a text is no module.
ghost use Rattle.std.specs.Prelude.{◌≡◌};
ghost use Rattle.proc_grammar.specs.declared.fault.ParseFault.TheVariants.{NoMemory};
ghost use Rattle.proc_grammar.specs.Fault.{of_scan, fault_number, fault_place};
ghost use Rattle.proc_grammar.specs.FaultText.{reason};

use std::alloc::{AllocError, AllocFailed};
use std::error::Error;
use std::fmt;
use text_scan::ScanFault;

/// Why a text is no module: its first fault, or that memory was refused. A place is that of a byte of
/// the text, counted from 0.
///
/// A text that can't be cut into tokens has the fault `Scan`, whatever else is wrong. Of the others the
/// one whose place comes first is told, and at one place the one that stands first here.
#[derive(Clone, Copy, Debug)]
pub enum ParseFault {
    /// It can't be cut into tokens. This is never the scan fault `NoMemory`.
    Scan(ScanFault),
    /// The tokens before this place begin a module, and with the token at this place, or with the text's
    /// end there, no module goes on.
    Expected(u32),
    /// The number or the name at this place is out of its bounds.
    Range(u32),
    /// The item, the term, the argument or the bracket that begins at this place is one too many.
    TooMany(u32),
    /// Memory was refused.
    NoMemory,
}

impl ParseFault {
    /// Its number: 1 for `Scan`, 2 `Expected`, 3 `Range`, 4 `TooMany`, 5 `NoMemory`.
    pub fn number(self) -> u8
        ensures { result ≡ fault_number self }
    {
        match self {
            ParseFault::Scan(_) => 1,
            ParseFault::Expected(_) => 2,
            ParseFault::Range(_) => 3,
            ParseFault::TooMany(_) => 4,
            ParseFault::NoMemory => 5,
        }
    }

    /// The place of its byte, of `Scan` the place that the scan fault tells, and 0 for `NoMemory`.
    pub fn place(self) -> u32
        ensures { result ≡ fault_place self }
    {
        match self {
            ParseFault::Scan(fault) => fault.place(),
            ParseFault::Expected(at) | ParseFault::Range(at) | ParseFault::TooMany(at) => at,
            ParseFault::NoMemory => 0,
        }
    }

    // What is wrong at its place; nothing where it is told otherwise.
    fn why(self) -> &'static str
        ensures { result.now ≡ reason self }
    {
        match self {
            ParseFault::Scan(_) | ParseFault::NoMemory => "",
            ParseFault::Expected(_) => "no module goes on so",
            ParseFault::Range(_) => "the number or name is out of its bounds",
            ParseFault::TooMany(_) => "one too many",
        }
    }
}

impl fmt::Display for ParseFault {
    ghost use Rattle.std.specs.Prelude.{Some};
    ghost use Rattle.proc_grammar.specs.FaultText.{parse_fault_text};

    ghost output = { λ fault. Some (parse_fault_text fault) };

    fn fmt<W: fmt::Write>(&self, f: &mut fmt::Formatter<W>) -> fmt::Result {
        match self {
            ParseFault::Scan(fault) => write!(f, "{fault}"),
            ParseFault::Expected(at) | ParseFault::Range(at) | ParseFault::TooMany(at) => {
                write!(f, "byte {at}: {}", self.why())
            }
            ParseFault::NoMemory => f.write_str("out of memory"),
        }
    }
}

impl Error for ParseFault {}

impl From<ScanFault> for ParseFault {
    ghost from_gives = { λ f e. e ≡ of_scan f };

    fn from(fault: ScanFault) -> ParseFault {
        match fault {
            ScanFault::NoMemory => ParseFault::NoMemory,
            other => ParseFault::Scan(other),
        }
    }
}

impl From<AllocError> for ParseFault {
    ghost from_gives = { λ _ e. e ≡ NoMemory };

    fn from(_e: AllocError) -> ParseFault {
        ParseFault::NoMemory
    }
}

impl<T: Drop> From<AllocFailed<T>> for ParseFault {
    ghost from_gives = { λ _ e. e ≡ NoMemory };

    fn from(_e: AllocFailed<T>) -> ParseFault {
        ParseFault::NoMemory
    }
}
