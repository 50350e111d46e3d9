//! Reading the files of the words.
ghost use Rattle.std.specs.Prelude.{◌≤◌, length, IfOk};
ghost use Rattle.file_plans.specs.Plans.{file, Follows};

use crate::LONGEST_FILE;
use crate::refusal::{Refusal, Stop};
use cap_words::Items;
use command_words::FileName;
use outside_io::{Files, ReadEnd, read_whole};
use std::alloc::Global;

/// The bytes of a file whose turn it is, at most [`LONGEST_FILE`] of them.
///
/// `index` is what a refusal tells of it: the index of its part, 0 for an image and for a text of `audit`,
/// and the number of parts for a feed or a script.
pub fn read<F: Files>(
    alloc: Global,
    files: &mut F,
    name: &FileName<'_>,
    index: u32,
) -> Result<Items<u8>, Stop>
    ensures came { Follows (file name.now index) (F.seen files.old) result (F.seen files.new) }
    ensures short { IfOk result (λ bytes. length bytes ≤ LONGEST_FILE) }
{
    match read_whole(alloc, files, name.as_str(), LONGEST_FILE) {
        Ok(bytes) => Ok(Items::of(bytes)),
        Err(ReadEnd::Fault) => Err(Stop::Refused(Refusal::ReadFault)),
        Err(ReadEnd::TooLong) => Err(Stop::Refused(Refusal::TooLong(index))),
        Err(ReadEnd::NoMemory) => Err(Stop::NoMemory),
    }
}
