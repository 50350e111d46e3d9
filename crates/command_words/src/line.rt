//! The command line as `clap` takes it apart.
ghost use Rattle.std.specs.Prelude.{◌≡◌, IfOk, false};
ghost use Rattle.std.specs.Option.{option_map};
ghost use Rattle.clap.specs.Words.{app_of, found_of, rows_of, rule_of};
ghost use Rattle.command_words.specs.Line.{action_word, line, option, part_words, rows, taken_of};
ghost use Rattle.command_words.specs.Texts.{texts};
ghost use Rattle.command_words.specs.Views.{taken_in};

use crate::parse::matches_by;
use clap::{Arg, ArgAction, ArgMatches, Command};
use std::alloc::{AllocError, Global};

/// The words as they stand, under their names. Each option is used once at most.
#[derive(Clone, Copy)]
pub(crate) struct Taken<'m, 'a> {
    pub(crate) action: Option<&'a str>,
    pub(crate) parts: Option<&'m [&'a str]>,
    pub(crate) stack: Option<&'a str>,
    pub(crate) steps: Option<&'a str>,
    pub(crate) out: Option<&'a str>,
    pub(crate) feed: Option<&'a str>,
    pub(crate) seed: Option<&'a str>,
}

// `--name VALUE` or `--name=VALUE`.
fn option<'a>(alloc: Global, name: &'a str) -> Arg<'a>
    ensures rule { rule_of result ≡ option name.entry.now }
    ensures local { result.global ≡ false }
{
    Arg::new(alloc, name).long(name)
}

fn action_word<'a>(alloc: Global) -> Arg<'a>
    ensures rule { rule_of result ≡ action_word }
    ensures local { result.global ≡ false }
{
    Arg::new(alloc, "ACTION").required(true)
}

fn part_words<'a>(alloc: Global) -> Arg<'a>
    ensures rule { rule_of result ≡ part_words }
    ensures local { result.global ≡ false }
{
    Arg::new(alloc, "PARTS").action(ArgAction::Append)
}

// The one simple command: ACTION, the options, and PARTS of any number.
fn line<'a>(alloc: Global) -> Result<Command<'a>, AllocError>
    ensures { IfOk result (λ c. app_of c ≡ line) }
{
    let args = vec![in alloc;
        action_word(alloc),
        option(alloc, "stack"),
        option(alloc, "steps"),
        option(alloc, "out"),
        option(alloc, "feed"),
        option(alloc, "seed"),
        part_words(alloc),
    ]?;
    Command::new(alloc, "stk").args(args)
}

/// The matches of the words, and None exactly where the command line doesn't take them.
pub(crate) fn matches<'a>(
    alloc: Global,
    words: &'a [String],
) -> Result<Option<ArgMatches<'a>>, AllocError>
    ensures { IfOk result (λ m. option_map (λ m. rows_of (found_of m)) m ≡ rows (texts words.now)) }
{
    matches_by(line(alloc)?.no_binary_name(true), words)
}

/// The matches by their ids.
pub(crate) fn taken_of<'m, 'a>(matches: &'m ArgMatches<'a>) -> Taken<'m, 'a>
    ensures { taken_in result ≡ taken_of (rows_of (found_of matches.now)) }
{
    Taken {
        action: matches.get_str("ACTION"),
        parts: matches.get_raw("PARTS"),
        stack: matches.get_str("stack"),
        steps: matches.get_str("steps"),
        out: matches.get_str("out"),
        feed: matches.get_str("feed"),
        seed: matches.get_str("seed"),
    }
}
