//! Why a text isn't drawn.

ghost use Rattle.std.specs.Prelude.{◌≡◌};
ghost use Rattle.run_audit.specs.declared.fault.AuditFault.TheVariants.{NoMemory};
ghost use Rattle.run_picture.specs.declared.fault.DrawFault.TheVariants.{Audit};

use run_audit::AuditFault;
use std::alloc::AllocError;
use std::error::Error;
use std::fmt;

/// Why a text isn't drawn.
#[derive(Clone, Copy, Debug)]
pub enum DrawFault {
    /// It has more than 4,194,304 bytes or 16,384 lines.
    TooLong,
    /// It is no trace of a run, or memory was refused (`AuditFault::NoMemory`), also where it is one.
    Audit(AuditFault),
}

impl fmt::Display for DrawFault {
    ghost use Rattle.std.specs.Prelude.{Some};
    ghost use Rattle.run_picture.specs.Fault.{draw_fault_text};

    ghost output = { λ fault. Some (draw_fault_text fault) };

    fn fmt<W: fmt::Write>(&self, f: &mut fmt::Formatter<W>) -> fmt::Result {
        match self {
            DrawFault::TooLong => write!(f, "the text is too long to be drawn"),
            DrawFault::Audit(fault) => write!(f, "{fault}"),
        }
    }
}

impl Error for DrawFault {}

impl From<AllocError> for DrawFault {
    ghost from_gives = { λ _ e. e ≡ Audit NoMemory };

    fn from(_e: AllocError) -> DrawFault {
        DrawFault::Audit(AuditFault::NoMemory)
    }
}

impl From<AuditFault> for DrawFault {
    ghost from_gives = { λ fault e. e ≡ Audit fault };

    fn from(fault: AuditFault) -> DrawFault {
        DrawFault::Audit(fault)
    }
}
