//! Reading a whole file.
ghost use Rattle.std.specs.Prelude.{◌≡◌, IfOk, IfErr};
ghost use Rattle.outside_io.specs.FilesSeen.{IsFileName};
ghost use Rattle.outside_io.specs.Whole.{GivesWhole, EndsRead};
ghost use Rattle.outside_io.specs.FaultTexts.{read_end_text};
ghost use Rattle.outside_io.specs.declared.whole.ReadEnd.TheVariants.{Fault, NoMemory};

use crate::outside::{Failed, Files};
use std::alloc::{AllocError, AllocFailed, Global};
use std::error::Error;
use std::fmt;

// How many bytes of a file one read asks for.
const PIECE: usize = 16384;

/// Why a whole file did not come.
#[derive(Debug, Clone, Copy)]
pub enum ReadEnd {
    /// A read failed.
    Fault,
    /// The file is longer than the limit.
    TooLong,
    /// There was no memory for the bytes.
    NoMemory,
}

impl ReadEnd {
    /// Its text.
    fn why(self) -> &'static str
        ensures { result.now ≡ read_end_text self }
    {
        match self {
            ReadEnd::Fault => "the file could not be read",
            ReadEnd::TooLong => "the file is too long",
            ReadEnd::NoMemory => "out of memory",
        }
    }
}

impl fmt::Display for ReadEnd {
    ghost use Rattle.std.specs.Prelude.{Some};

    ghost output = { λ e. Some (read_end_text e) };

    fn fmt<W: fmt::Write>(&self, f: &mut fmt::Formatter<W>) -> fmt::Result {
        f.write_str(self.why())
    }
}

impl Error for ReadEnd {}

impl From<Failed> for ReadEnd {
    ghost from_gives = { λ _ e. e ≡ Fault };

    fn from(_: Failed) -> Self {
        ReadEnd::Fault
    }
}

impl From<AllocError> for ReadEnd {
    ghost from_gives = { λ _ e. e ≡ NoMemory };

    fn from(_: AllocError) -> Self {
        ReadEnd::NoMemory
    }
}

impl<T: Drop> From<AllocFailed<T>> for ReadEnd {
    ghost from_gives = { λ _ e. e ≡ NoMemory };

    fn from(_: AllocFailed<T>) -> Self {
        ReadEnd::NoMemory
    }
}

/// All the bytes of the file of this name, which are at most `limit`. Where contents aren't told,
/// they are all that the reads gave.
///
/// It reads from the first byte on until a read gives none, and stops with `TooLong` as soon as
/// more bytes than `limit` came. `Fault` says that a read failed, which the files have counted.
/// Each read but the last gives a byte or more, so there are at most `limit + 1` of them, and one
/// more than the bytes at most where the whole file came.
pub fn read_whole<F: Files>(
    alloc: Global,
    files: &mut F,
    name: &str,
    limit: u32,
) -> Result<Vec<u8>, ReadEnd>
    requires { IsFileName name.now }
    ensures ok { IfOk result (λ v.
        GivesWhole (F.seen files.old) name.now limit v.items (F.seen files.new)) }
    ensures err { IfErr result
        (EndsRead (F.seen files.old) name.now limit (F.seen files.new)) }
{
    let mut whole = Vec::new(alloc);
    let mut buffer = [0; PIECE];
    loop {
        let count = files.read(name, whole.len() as u64, &mut buffer)?;
        if count == 0 {
            return Ok(whole);
        }
        if whole.len() + count > limit as usize {
            return Err(ReadEnd::TooLong);
        }
        whole.extend_from_slice(&buffer[..count])?;
    }
}
