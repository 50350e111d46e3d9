//! Why a text is no trace of a run.
ghost use Rattle.std.specs.Prelude.{◌≡◌, option_map};
ghost use Rattle.run_audit.specs.declared.fault.AuditFault.TheVariants.{NoMemory};
ghost use Rattle.run_audit.specs.Fault.{fault_number, fault_line, AreWordsAround};

use std::alloc::{AllocError, AllocFailed};
use std::error::Error;
use std::fmt;

/// Why a text is no trace of a run: the number of the first line that spoils it, counted from 1, or that
/// memory was refused. Of two faults of one line it is the one that stands first here.
#[derive(Clone, Copy, Debug)]
pub enum AuditFault {
    /// The line has none of the forms, or stands where none of its form can.
    Form(u64),
    /// The line's range is empty, or it has more or fewer words than its range has addresses.
    Width(u64),
    /// A call whose range doesn't lie below that of the newest open call.
    Overlap(u64),
    /// A return while no call is open.
    Unopened(u64),
    /// A return that differs from the newest open call.
    Mismatch(u64),
    /// Memory was refused.
    NoMemory,
}

impl AuditFault {
    /// Its number: 1 for `Form`, 2 `Width`, 3 `Overlap`, 4 `Unopened`, 5 `Mismatch`, 6 `NoMemory`.
    pub fn number(self) -> u8
        ensures { result ≡ fault_number self }
    {
        match self {
            AuditFault::Form(_) => 1,
            AuditFault::Width(_) => 2,
            AuditFault::Overlap(_) => 3,
            AuditFault::Unopened(_) => 4,
            AuditFault::Mismatch(_) => 5,
            AuditFault::NoMemory => 6,
        }
    }

    /// The number of its line, and 0 for `NoMemory`.
    pub fn line(self) -> u64
        ensures { result ≡ fault_line self }
    {
        match self {
            AuditFault::Form(line)
            | AuditFault::Width(line)
            | AuditFault::Overlap(line)
            | AuditFault::Unopened(line)
            | AuditFault::Mismatch(line) => line,
            AuditFault::NoMemory => 0,
        }
    }

    // What its text says before the number of its line, and after it.
    fn words(self) -> Option<(&'static str, &'static str)>
        ensures { AreWordsAround self (option_map (λ w. (w.0.now, w.1.now)) result) }
    {
        match self {
            AuditFault::Form(_) => Some(("line ", " isn't what a run writes there")),
            AuditFault::Width(_) => Some(("line ", " has a wrong number of words")),
            AuditFault::Overlap(_) => Some(("the call of line ", " doesn't lie below the newest")),
            AuditFault::Unopened(_) => Some(("the return of line ", " has no call")),
            AuditFault::Mismatch(_) => Some(("the return of line ", " differs from its call")),
            AuditFault::NoMemory => None,
        }
    }
}

impl fmt::Display for AuditFault {
    ghost use Rattle.std.specs.Prelude.{Some};
    ghost use Rattle.run_audit.specs.Fault.{fault_text};

    ghost output = { λ fault. Some (fault_text fault) };

    fn fmt<W: fmt::Write>(&self, f: &mut fmt::Formatter<W>) -> fmt::Result {
        match self.words() {
            Some((before, after)) => write!(f, "{before}{}{after}", self.line()),
            None => f.write_str("out of memory"),
        }
    }
}

impl Error for AuditFault {}

impl From<AllocError> for AuditFault {
    ghost from_gives = { λ _ e. e ≡ NoMemory };

    fn from(_e: AllocError) -> AuditFault {
        AuditFault::NoMemory
    }
}

impl<T: Drop> From<AllocFailed<T>> for AuditFault {
    ghost from_gives = { λ _ e. e ≡ NoMemory };

    fn from(_e: AllocFailed<T>) -> AuditFault {
        AuditFault::NoMemory
    }
}
