//! Why a component file can't be read.
ghost use Rattle.std.specs.Prelude.{◌≡◌, option_map};
ghost use Rattle.component_file.specs.declared.fault.FileFault.TheVariants.{NoMemory};
ghost use Rattle.component_file.specs.Fault.{in_file, fault_number, fault_place};
ghost use Rattle.component_file.specs.FaultText.{IsWordsOf};

use cap_words::FieldFault;
use std::alloc::{AllocError, AllocFailed};
use std::error::Error;
use std::fmt;

/// Why bytes were not read as a component: the first fault from left to right, or that memory was
/// refused. A place is that of a byte, counted from 0.
#[derive(Clone, Copy, Debug)]
pub enum FileFault {
    /// The first four bytes aren't `STKC`.
    Magic,
    /// The version is neither 1 nor 2.
    Version,
    /// The bytes of the field that begins here aren't all there.
    Short(u32),
    /// The field that begins here says nothing: a number outside its limits, an unknown tag, a bad
    /// name.
    BadField(u32),
    /// The item that begins here doesn't stand after the one before it: what orders them must rise.
    Order(u32),
    /// The component ends, and more bytes begin here.
    Trailing(u32),
    /// Memory was refused.
    NoMemory,
}

impl FileFault {
    /// Its number: 1 for `Magic`, 2 `Version`, 3 `Short`, 4 `BadField`, 5 `Order`, 6 `Trailing`,
    /// 7 `NoMemory`.
    pub fn number(self) -> u8
        ensures { result ≡ fault_number self }
    {
        match self {
            FileFault::Magic => 1,
            FileFault::Version => 2,
            FileFault::Short(_) => 3,
            FileFault::BadField(_) => 4,
            FileFault::Order(_) => 5,
            FileFault::Trailing(_) => 6,
            FileFault::NoMemory => 7,
        }
    }

    /// The place of its byte, and 0 where it tells none.
    pub fn place(self) -> u32
        ensures { result ≡ fault_place self }
    {
        match self {
            FileFault::Short(at)
            | FileFault::BadField(at)
            | FileFault::Order(at)
            | FileFault::Trailing(at) => at,
            FileFault::Magic | FileFault::Version | FileFault::NoMemory => 0,
        }
    }

    // What its text says before its place, and after it if it tells one.
    fn words(self) -> (&'static str, Option<&'static str>)
        ensures { IsWordsOf self result.0.now (option_map (λ after. after.now) result.1) }
    {
        match self {
            FileFault::Magic => ("the file does not begin with STKC", None),
            FileFault::Version => ("the version is neither 1 nor 2", None),
            FileFault::Short(_) => ("the file ends within the field at byte ", Some("")),
            FileFault::BadField(_) => ("the field at byte ", Some(" is not valid")),
            FileFault::Order(_) => ("the item at byte ", Some(" is out of order")),
            FileFault::Trailing(_) => ("the component ends before byte ", Some("")),
            FileFault::NoMemory => ("out of memory", None),
        }
    }
}

impl fmt::Display for FileFault {
    ghost use Rattle.std.specs.Prelude.{Some};
    ghost use Rattle.component_file.specs.FaultText.{file_fault_text};

    ghost output = { λ fault. Some (file_fault_text fault) };

    fn fmt<W: fmt::Write>(&self, f: &mut fmt::Formatter<W>) -> fmt::Result {
        match self.words() {
            (text, None) => f.write_str(text),
            (before, Some(after)) => write!(f, "{before}{}{after}", self.place()),
        }
    }
}

impl Error for FileFault {}

impl From<FieldFault> for FileFault {
    ghost from_gives = { λ f e. e ≡ in_file f };

    fn from(fault: FieldFault) -> FileFault {
        match fault {
            FieldFault::Short(at) => FileFault::Short(at),
            FieldFault::BadField(at) => FileFault::BadField(at),
        }
    }
}

impl From<AllocError> for FileFault {
    ghost from_gives = { λ _ e. e ≡ NoMemory };

    fn from(_e: AllocError) -> FileFault {
        FileFault::NoMemory
    }
}

impl<T: Drop> From<AllocFailed<T>> for FileFault {
    ghost from_gives = { λ _ e. e ≡ NoMemory };

    fn from(_e: AllocFailed<T>) -> FileFault {
        FileFault::NoMemory
    }
}
