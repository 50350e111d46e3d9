//! Why an image can't be loaded.
ghost use Rattle.std.specs.Prelude.{◌≡◌};
ghost use Rattle.image_loader.specs.declared.fault.ImageFault.TheVariants.{NoMemory};
ghost use Rattle.image_loader.specs.Fault.{fault_number, fault_place, in_image, not_linked};

use cap_words::FieldFault;
use component_file::FileFault;
use component_linker::{LinkFault, RuleAt};
use std::alloc::{AllocError, AllocFailed};
use std::error::Error;
use std::fmt;

/// Why bytes weren't loaded as an image: the first fault in the order in which it is looked for, or
/// that memory was refused. A place is that of a byte, counted from 0.
#[derive(Clone, Copy, Debug)]
pub enum ImageFault {
    /// The first four bytes aren't `STKI`.
    Magic,
    /// The version isn't 1.
    Version,
    /// The bytes of the field that begins here aren't all there. A part's component is one field.
    Short(u32),
    /// The field that begins here says nothing: a number of parts out of bounds, an unknown mark.
    BadField(u32),
    /// The image ends, and more bytes begin here.
    Trailing(u32),
    /// The component of the part with this index can't be read. Places in it are counted from the
    /// component's first byte.
    File(u32, FileFault),
    /// This is the first rule that is broken: by a part alone, or by the parts together.
    Rule(RuleAt),
    /// Memory was refused.
    NoMemory,
}

impl ImageFault {
    /// Its number: 1 for `Magic`, 2 `Version`, 3 `Short`, 4 `BadField`, 5 `Trailing`, 6 `File`,
    /// 7 `Rule`, 8 `NoMemory`.
    pub fn number(self) -> u8
        ensures { result ≡ fault_number self }
    {
        match self {
            ImageFault::Magic => 1,
            ImageFault::Version => 2,
            ImageFault::Short(_) => 3,
            ImageFault::BadField(_) => 4,
            ImageFault::Trailing(_) => 5,
            ImageFault::File(_, _) => 6,
            ImageFault::Rule(_) => 7,
            ImageFault::NoMemory => 8,
        }
    }

    /// The place of its byte in the image, and 0 where it tells none there. What `File` and `Rule`
    /// hold tells its own.
    pub fn place(self) -> u32
        ensures { result ≡ fault_place self }
    {
        match self {
            ImageFault::Short(at) | ImageFault::BadField(at) | ImageFault::Trailing(at) => at,
            ImageFault::Magic
            | ImageFault::Version
            | ImageFault::File(_, _)
            | ImageFault::Rule(_)
            | ImageFault::NoMemory => 0,
        }
    }
}

impl fmt::Display for ImageFault {
    ghost use Rattle.std.specs.Prelude.{Some};
    ghost use Rattle.image_loader.specs.FaultText.{image_fault_text};

    ghost output = { λ fault. Some (image_fault_text fault) };

    fn fmt<W: fmt::Write>(&self, f: &mut fmt::Formatter<W>) -> fmt::Result {
        match self {
            ImageFault::Magic => f.write_str("the image does not begin with STKI"),
            ImageFault::Version => f.write_str("the version is not 1"),
            ImageFault::Short(at) => write!(f, "the image ends within the field at byte {at}"),
            ImageFault::BadField(at) => write!(f, "the field at byte {at} is not valid"),
            ImageFault::Trailing(at) => write!(f, "the image ends before byte {at}"),
            ImageFault::File(part, fault) => write!(f, "part {part}: {fault}"),
            ImageFault::Rule(at) => fmt::Display::fmt(at, f),
            ImageFault::NoMemory => f.write_str("out of memory"),
        }
    }
}

impl Error for ImageFault {}

impl From<FieldFault> for ImageFault {
    ghost from_gives = { λ f e. e ≡ in_image f };

    fn from(fault: FieldFault) -> ImageFault {
        match fault {
            FieldFault::Short(at) => ImageFault::Short(at),
            FieldFault::BadField(at) => ImageFault::BadField(at),
        }
    }
}

impl From<LinkFault> for ImageFault {
    ghost from_gives = { λ f e. e ≡ not_linked f };

    fn from(fault: LinkFault) -> ImageFault {
        match fault {
            LinkFault::Rule(at) => ImageFault::Rule(at),
            LinkFault::NoMemory => ImageFault::NoMemory,
        }
    }
}

impl From<AllocError> for ImageFault {
    ghost from_gives = { λ _ e. e ≡ NoMemory };

    fn from(_refused: AllocError) -> ImageFault {
        ImageFault::NoMemory
    }
}

impl<T: Drop> From<AllocFailed<T>> for ImageFault {
    ghost from_gives = { λ _ e. e ≡ NoMemory };

    fn from(_refused: AllocFailed<T>) -> ImageFault {
        ImageFault::NoMemory
    }
}
