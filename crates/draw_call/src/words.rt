//! The words of the command line: what they ask for, and nothing where they are no command.
ghost use Rattle.std.specs.Prelude.{◌≡◌, IfOk, false};
ghost use Rattle.clap.specs.Words.{app_of, found_of, rows_of, rule_of};
ghost use Rattle.command_words.specs.Texts.{texts};
ghost use Rattle.draw_call.specs.Words.{required, draw_line, call_of, call_in};

use clap::{Arg, ArgMatches, Command};
use command_words::{FileName, file_by, matches_by};
use std::alloc::{AllocError, Global};

/// A call of the program: whose text is drawn, and where the picture is put.
#[derive(Drop)]
pub struct DrawCall<'a> {
    /// The file of `--feed`.
    pub feed: FileName<'a>,
    /// The file of `--out`.
    pub out: FileName<'a>,
}

// `--name VALUE` or `--name=VALUE`, which must be used.
fn required<'a>(alloc: Global, name: &'a str) -> Arg<'a>
    ensures rule { rule_of result ≡ required name.entry.now }
    ensures local { result.global ≡ false }
{
    Arg::new(alloc, name).long(name).required(true)
}

// The one simple command.
fn line<'a>(alloc: Global) -> Result<Command<'a>, AllocError>
    ensures { IfOk result (λ c. app_of c ≡ draw_line) }
{
    let command = Command::new(alloc, "stk_draw")
        .arg(required(alloc, "feed"))?
        .arg(required(alloc, "out"))?;
    Ok(command.no_binary_name(true))
}

// The files that the options name.
fn call_of<'a>(matches: &ArgMatches<'a>) -> Option<DrawCall<'a>>
    ensures { result ≡ call_of (rows_of (found_of matches.now)) }
{
    let feed = file_by(matches, "feed")?;
    let out = file_by(matches, "out")?;
    Some(DrawCall { feed, out })
}

/// What the words ask for, which are those after the program's own name: None where they are no command.
pub(crate) fn call_in<'a>(
    alloc: Global,
    words: &'a [String],
) -> Result<Option<DrawCall<'a>>, AllocError>
    ensures { IfOk result (λ call. call ≡ call_in (texts words.now)) }
{
    match matches_by(line(alloc)?, words)? {
        Some(matches) => Ok(call_of(&matches)),
        None => Ok(None),
    }
}
