//! Words, taken apart by a command of `clap`.
ghost use Rattle.std.specs.Prelude.{◌≡◌, IfOk, true};
ghost use Rattle.std.specs.Option.{option_map};
ghost use Rattle.clap.specs.Words.{app_of, first_of, found_of, is_simple_and_free, rows_of};
ghost use Rattle.command_words.specs.Name.{file_of};
ghost use Rattle.command_words.specs.Rows.{rows_by};
ghost use Rattle.command_words.specs.Texts.{texts};

use crate::name::{FileName, file_of};
use clap::error::ErrorKind;
use clap::{ArgMatches, Command};
use std::alloc::AllocError;

/// The matches of the words, and None exactly where the command doesn't take them.
///
/// The command is simple, as `clap`'s definitions have it, and no argument of it has a rule on another. It
/// errs where memory is refused.
pub fn matches_by<'a>(
    command: Command<'a>,
    words: &'a [String],
) -> Result<Option<ArgMatches<'a>>, AllocError>
    requires { is_simple_and_free (app_of command) ≡ true }
    ensures { IfOk result (λ m.
        option_map (λ m. rows_of (found_of m)) m ≡ rows_by (app_of command.entry) (texts words.now)) }
{
    match command.try_get_matches_from(words) {
        Ok(matches) => Ok(Some(matches)),
        Err(error) => {
            if error.kind() == ErrorKind::OutOfMemory {
                Err(AllocError)
            } else {
                Ok(None)
            }
        }
    }
}

/// The file that an option names: None where the option isn't used, or its value is no file's name.
pub fn file_by<'a>(matches: &ArgMatches<'a>, option: &str) -> Option<FileName<'a>>
    ensures { result ≡ file_of (first_of option.now (rows_of (found_of matches.now))) }
{
    file_of(matches.get_str(option))
}
