//! Why a text is no feed.
ghost use Rattle.std.specs.Prelude.{◌≡◌};
ghost use Rattle.line_fields.specs.declared.fault.FeedFault.TheVariants.{NoMemory};

use std::alloc::{AllocError, AllocFailed};
use std::error::Error;
use std::fmt;

/// Why a text is no feed.
#[derive(Clone, Copy, Debug)]
pub enum FeedFault {
    /// The first line that isn't of the form that it must have, counted from 1.
    Line(u64),
    /// Memory was refused.
    NoMemory,
}

impl fmt::Display for FeedFault {
    ghost use Rattle.std.specs.Prelude.{Some};
    ghost use Rattle.line_fields.specs.FaultText.{feed_fault_text};

    ghost output = { λ fault. Some (feed_fault_text fault) };

    fn fmt<W: fmt::Write>(&self, f: &mut fmt::Formatter<W>) -> fmt::Result {
        match self {
            FeedFault::Line(line) => write!(f, "line {line} is not of the form of a feed's"),
            FeedFault::NoMemory => f.write_str("out of memory"),
        }
    }
}

impl Error for FeedFault {}

impl From<AllocError> for FeedFault {
    ghost from_gives = { λ _ e. e ≡ NoMemory };

    fn from(_e: AllocError) -> FeedFault {
        FeedFault::NoMemory
    }
}

impl<T: Drop> From<AllocFailed<T>> for FeedFault {
    ghost from_gives = { λ _ e. e ≡ NoMemory };

    fn from(_e: AllocFailed<T>) -> FeedFault {
        FeedFault::NoMemory
    }
}
