//! Why a text isn't assembled.
ghost use Rattle.std.specs.Prelude.{◌≡◌, option_map};
ghost use Rattle.asm_fields.specs.declared.fault.AsmFault.TheVariants.{NoMemory};
ghost use Rattle.asm_fields.specs.Fault.{of_scan, fault_number, fault_place};
ghost use Rattle.asm_fields.specs.FaultText.{IsWhy};

use std::alloc::{AllocError, AllocFailed};
use std::error::Error;
use std::fmt;
use text_scan::ScanFault;

/// Why a text isn't assembled: its first fault, or that memory was refused. A place is that of a byte
/// of the text, counted from 0.
///
/// A fault stands at its token; where a sign `.`, `-`, `@` or `%` belongs to a directive, a number or a
/// label, at the sign; where an operand is missing, at the line's end. Of two faults at one place it is
/// the one that stands first here, but that a label outside code and data is `Section`, also where its
/// name stands there already.
#[derive(Clone, Copy, Debug)]
pub enum AsmFault {
    /// It has no tokens. This is never the scan fault `NoMemory`.
    Scan(ScanFault),
    /// No directive or instruction has this name.
    Unknown(u32),
    /// An operand is missing, is one too many, or is none that can stand here; or the name of a label or
    /// an operand is too long.
    Operand(u32),
    /// A label has its name twice: this is the second place.
    LabelTwice(u32),
    /// No label of the code, or of the data where one of the data is meant, has the name that stands here.
    LabelMissing(u32),
    /// A number is out of its bounds.
    Range(u32),
    /// An item is out of its place, missing, or past the count of its kind.
    Section(u32),
    /// Memory was refused.
    NoMemory,
}

impl AsmFault {
    /// Its number: 1 for `Scan`, 2 `Unknown`, 3 `Operand`, 4 `LabelTwice`, 5 `LabelMissing`, 6 `Range`,
    /// 7 `Section`, 8 `NoMemory`.
    pub fn number(self) -> u8
        ensures { result ≡ fault_number self }
    {
        match self {
            AsmFault::Scan(_) => 1,
            AsmFault::Unknown(_) => 2,
            AsmFault::Operand(_) => 3,
            AsmFault::LabelTwice(_) => 4,
            AsmFault::LabelMissing(_) => 5,
            AsmFault::Range(_) => 6,
            AsmFault::Section(_) => 7,
            AsmFault::NoMemory => 8,
        }
    }

    /// The place of its byte, of `Scan` the place that the scan fault tells, and 0 for `NoMemory`.
    pub fn place(self) -> u32
        ensures { result ≡ fault_place self }
    {
        match self {
            AsmFault::Scan(fault) => fault.place(),
            AsmFault::Unknown(at)
            | AsmFault::Operand(at)
            | AsmFault::LabelTwice(at)
            | AsmFault::LabelMissing(at)
            | AsmFault::Range(at)
            | AsmFault::Section(at) => at,
            AsmFault::NoMemory => 0,
        }
    }

    // What is wrong at its byte, where its text tells the byte.
    fn why(self) -> Option<&'static str>
        ensures { IsWhy self (option_map (λ why. why.now) result) }
    {
        match self {
            AsmFault::Unknown(_) => Some("no directive or instruction"),
            AsmFault::Operand(_) => Some("a missing, extra or wrong operand"),
            AsmFault::LabelTwice(_) => Some("this label stands twice"),
            AsmFault::LabelMissing(_) => Some("there is no such label"),
            AsmFault::Range(_) => Some("the number is out of its bounds"),
            AsmFault::Section(_) => Some("an item out of its place, or missing"),
            AsmFault::Scan(_) | AsmFault::NoMemory => None,
        }
    }
}

impl fmt::Display for AsmFault {
    ghost use Rattle.std.specs.Prelude.{Some};
    ghost use Rattle.asm_fields.specs.FaultText.{asm_fault_text};

    ghost output = { λ fault. Some (asm_fault_text fault) };

    fn fmt<W: fmt::Write>(&self, f: &mut fmt::Formatter<W>) -> fmt::Result {
        match (self, self.why()) {
            (_, Some(why)) => write!(f, "byte {}: {why}", self.place()),
            (AsmFault::Scan(fault), None) => write!(f, "{fault}"),
            (_, None) => f.write_str("out of memory"),
        }
    }
}

impl Error for AsmFault {}

impl From<ScanFault> for AsmFault {
    ghost from_gives = { λ f e. e ≡ of_scan f };

    fn from(fault: ScanFault) -> AsmFault {
        match fault {
            ScanFault::NoMemory => AsmFault::NoMemory,
            other => AsmFault::Scan(other),
        }
    }
}

impl From<AllocError> for AsmFault {
    ghost from_gives = { λ _ e. e ≡ NoMemory };

    fn from(_e: AllocError) -> AsmFault {
        AsmFault::NoMemory
    }
}

impl<T: Drop> From<AllocFailed<T>> for AsmFault {
    ghost from_gives = { λ _ e. e ≡ NoMemory };

    fn from(_e: AllocFailed<T>) -> AsmFault {
        AsmFault::NoMemory
    }
}
