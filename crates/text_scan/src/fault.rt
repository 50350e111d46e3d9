//! Why a text can't be cut into tokens.
ghost use Rattle.std.specs.Prelude.{◌≡◌};
ghost use Rattle.text_scan.specs.declared.fault.ScanFault.TheVariants.{NoMemory};
ghost use Rattle.text_scan.specs.Fault.{fault_number, fault_place};

use std::alloc::{AllocError, AllocFailed};
use std::error::Error;
use std::fmt;

/// Why a text has no tokens: the first fault from left to right, or that memory was refused. A place
/// is that of a byte of the text, counted from 0. The place of a line that is too long is that of its
/// first byte too many; of two faults at one place it is the later one.
#[derive(Clone, Copy, Debug)]
pub enum ScanFault {
    /// No token begins with the byte at this place.
    BadByte(u32),
    /// The digits that begin at this place spell more than 2^63.
    NumberTooLarge(u32),
    /// The line of this number, counted from 1, has more than 512 bytes.
    LineTooLong(u32),
    /// Memory was refused.
    NoMemory,
}

impl ScanFault {
    /// Its number: 1 for `BadByte`, 2 `NumberTooLarge`, 3 `LineTooLong`, 4 `NoMemory`.
    pub fn number(self) -> u8
        ensures { result ≡ fault_number self }
    {
        match self {
            ScanFault::BadByte(_) => 1,
            ScanFault::NumberTooLarge(_) => 2,
            ScanFault::LineTooLong(_) => 3,
            ScanFault::NoMemory => 4,
        }
    }

    /// The place of its byte, for `LineTooLong` the number of the line, and 0 for `NoMemory`.
    pub fn place(self) -> u32
        ensures { result ≡ fault_place self }
    {
        match self {
            ScanFault::BadByte(at) | ScanFault::NumberTooLarge(at) => at,
            ScanFault::LineTooLong(line) => line,
            ScanFault::NoMemory => 0,
        }
    }
}

impl fmt::Display for ScanFault {
    ghost use Rattle.std.specs.Prelude.{Some};
    ghost use Rattle.text_scan.specs.FaultText.{scan_fault_text};

    ghost output = { λ fault. Some (scan_fault_text fault) };

    fn fmt<W: fmt::Write>(&self, f: &mut fmt::Formatter<W>) -> fmt::Result {
        match self {
            ScanFault::BadByte(at) => write!(f, "no token begins at byte {at}"),
            ScanFault::NumberTooLarge(at) => write!(f, "the number at byte {at} is above 2^63"),
            ScanFault::LineTooLong(line) => write!(f, "line {line} has more than 512 bytes"),
            ScanFault::NoMemory => f.write_str("out of memory"),
        }
    }
}

impl Error for ScanFault {}

impl From<AllocError> for ScanFault {
    ghost from_gives = { λ _ e. e ≡ NoMemory };

    fn from(_e: AllocError) -> ScanFault {
        ScanFault::NoMemory
    }
}

impl<T: Drop> From<AllocFailed<T>> for ScanFault {
    ghost from_gives = { λ _ e. e ≡ NoMemory };

    fn from(_e: AllocFailed<T>) -> ScanFault {
        ScanFault::NoMemory
    }
}
