//! Why a call ends before it did what the words ask for.
ghost use Rattle.std.specs.Prelude.{◌≡◌};
ghost use Rattle.file_plans.specs.declared.refusal.Stop.TheVariants.{NoMemory};

use assembler::AsmFault;
use component_file::FileFault;
use image_loader::ImageFault;
use linked_starts::RuleAt;
use proc_sources::SourceFault;
use run_audit::AuditFault;
use std::alloc::{AllocError, AllocFailed};

/// What a refusal tells. A part is told by its index among the part words, or in
/// the image.
#[derive(Clone, Copy)]
pub enum Refusal {
    /// The words are no command.
    Usage,
    /// A file could not be read.
    ReadFault,
    /// The file of this part is too long; an image is part 0, and a feed or a script has
    /// the number of parts.
    TooLong(u32),
    /// The assembler text of this part spells no component.
    Assembly(u32, AsmFault),
    /// The source of this part has no component.
    Source(u32, SourceFault),
    /// The bytes of this part are no component.
    File(u32, FileFault),
    /// A part breaks a rule, or several of them do together.
    Rule(RuleAt),
    /// The image isn't loaded.
    Image(ImageFault),
    /// This line of the feed's file, counted from 1, is the first that has not the form that it must have.
    Feed(u64),
    /// This line of the script's file, counted from 1, is the first bad one.
    Script(u32),
    /// The text is no trace of a run.
    Audit(AuditFault),
}

/// Why a call goes no further.
#[derive(Clone, Copy)]
pub enum Stop {
    /// It is refused.
    Refused(Refusal),
    /// Memory was refused.
    NoMemory,
}

impl From<AllocError> for Stop {
    ghost from_gives = { λ _ e. e ≡ NoMemory };

    fn from(_e: AllocError) -> Stop {
        Stop::NoMemory
    }
}

impl<T: Drop> From<AllocFailed<T>> for Stop {
    ghost from_gives = { λ _ e. e ≡ NoMemory };

    fn from(_e: AllocFailed<T>) -> Stop {
        Stop::NoMemory
    }
}
