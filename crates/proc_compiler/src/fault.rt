//! Why a module isn't compiled.
ghost use Rattle.std.specs.Prelude.{◌≡◌};
ghost use Rattle.proc_compiler.specs.declared.fault.CompileFault.TheVariants.{NoMemory};
ghost use Rattle.proc_compiler.specs.Fault.{fault_number, fault_place};

use std::alloc::AllocError;
use std::error::Error;
use std::fmt;

/// Why a module isn't compiled.
#[derive(Clone, Copy, Debug)]
pub enum CompileFault {
    /// Code or data have more words than a component may have.
    TooLarge,
    /// There are more calls than return seals.
    SealsShort,
    /// Memory was refused.
    NoMemory,
}

impl CompileFault {
    /// Its number, after those of the faults of a text and of names: 10 for `TooLarge`,
    /// 11 `SealsShort`, 12 `NoMemory`.
    pub fn number(self) -> u8
        ensures { result ≡ fault_number self }
    {
        match self {
            CompileFault::TooLarge => 10,
            CompileFault::SealsShort => 11,
            CompileFault::NoMemory => 12,
        }
    }

    /// Its place: 0, since it tells none.
    pub fn place(self) -> u32
        ensures { result ≡ fault_place self }
    {
        0
    }
}

impl fmt::Display for CompileFault {
    ghost use Rattle.std.specs.Prelude.{Some};
    ghost use Rattle.proc_compiler.specs.FaultText.{compile_fault_text};

    ghost output = { λ fault. Some (compile_fault_text fault) };

    fn fmt<W: fmt::Write>(&self, f: &mut fmt::Formatter<W>) -> fmt::Result {
        f.write_str(match self {
            CompileFault::TooLarge => "the module has too many words",
            CompileFault::SealsShort => "the module has more calls than return seals",
            CompileFault::NoMemory => "out of memory",
        })
    }
}

impl Error for CompileFault {}

impl From<AllocError> for CompileFault {
    ghost from_gives = { λ _ e. e ≡ NoMemory };

    fn from(_e: AllocError) -> CompileFault {
        CompileFault::NoMemory
    }
}
