//! The text of a meaning.
ghost use Rattle.std.specs.Prelude.{◌≡◌, ◌<◌, ◌≤◌, ◌^◌, IfOk, IfErr, length};
ghost use Rattle.command_words.specs.declared.TheConstants.{MOST_PARTS};
ghost use Rattle.module_rules.specs.Rules.{ruled};
ghost use Rattle.file_plans.specs.declared.refusal.Refusal.TheVariants as refusal;
ghost use Rattle.file_plans.specs.declared.refusal.Stop.TheVariants.{NoMemory};
ghost use Rattle.file_plans.specs.Plans.{Meets, unless, FollowsAs};
ghost use Rattle.meaning_tool.specs.Subjects.{IsMeant, subject_of, subject_in};

use crate::feed::feed;
use crate::modules::modules;
use cap_words::Items;
use command_words::{FileName, PartWord};
use file_plans::{Refusal, Stop};
use module_rules::{check_modules, stack_base_of};
use outside_io::Files;
use proc_language::Module;
use proc_meaning::{meaning, told_text};
use source_events::{End, Item};
use std::alloc::Global;

/// What `mean` writes, and how the meaning ended.
#[derive(Drop)]
pub struct Meaning {
    /// A line for each event, and the end line.
    pub text: Items<u8>,
    /// How it ended.
    pub end: End,
}

// Whether modules keep the rules of a meaning.
fn check(modules: &[Module], size: u32) -> Result<(), Stop>
    requires { length modules.now < 2 ^ 32 }
    ensures { Meets (unless refusal.Rule (ruled modules.now size)) result }
{
    match check_modules(modules, size) {
        Ok(()) => Ok(()),
        Err(broken) => Err(Stop::Refused(Refusal::Rule(broken))),
    }
}

// The text of the meaning of modules.
fn tell(
    alloc: Global,
    modules: &[Module],
    size: u32,
    feed: &[Item],
    fuel: u64,
) -> Result<Meaning, Stop>
    ensures told { IfOk result (IsMeant fuel
        (record { modules = modules.now; size = size; feed = feed.now })) }
    ensures stops { IfErr result (λ stop. stop ≡ NoMemory) }
{
    let told = meaning(alloc, modules, size, feed, fuel)?;
    let text = told_text(alloc, &told)?;
    Ok(Meaning {
        text: Items::of(text),
        end: told.end,
    })
}

// The text of the meaning of modules, which are as many as the words, over the feed of a file.
fn meant_of<F: Files>(
    alloc: Global,
    files: &mut F,
    modules: &[Module],
    size: u32,
    fuel: u64,
    name: &FileName<'_>,
) -> Result<Meaning, Stop>
    requires { length modules.now < 2 ^ 32 }
    ensures { FollowsAs (IsMeant fuel) (subject_of (length modules.now) size name.now modules.now)
        (F.seen files.old) result (F.seen files.new) }
{
    check(modules, size)?;
    let items = feed(
        alloc,
        files,
        name,
        modules.len() as u32,
        stack_base_of(modules),
    )?;
    tell(alloc, modules, size, items.as_slice(), fuel)
}

/// Reads the modules of words and the feed of a file, and makes the text of their meaning with a stack of
/// `size` words under this fuel.
///
/// It stops where a file can't be read or is too long, where a text is no module, a name leads nowhere or a
/// token isn't spent just once, where the modules break a rule of a meaning, and where the feed has a line
/// that isn't of its form, in this order; or where memory is refused.
pub fn meant<F: Files>(
    alloc: Global,
    files: &mut F,
    words: &[PartWord<'_>],
    size: u32,
    fuel: u64,
    name: &FileName<'_>,
) -> Result<Meaning, Stop>
    requires few { length words.now ≤ MOST_PARTS }
    ensures { FollowsAs (IsMeant fuel) (subject_in words.now size name.now)
        (F.seen files.old) result (F.seen files.new) }
{
    let modules = modules(alloc, files, words)?;
    meant_of(alloc, files, modules.as_slice(), size, fuel, name)
}
