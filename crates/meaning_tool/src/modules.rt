//! The modules of words.
ghost use Rattle.std.specs.Prelude.{◌≡◌, ◌<◌, ◌≤◌, ◌^◌, [], IfOk, length};
ghost use Rattle.command_words.specs.declared.TheConstants.{MOST_PARTS};
ghost use Rattle.proc_names.specs.NameFaults.{name_faults};
ghost use Rattle.proc_sources.specs.Sources.{module_in};
ghost use Rattle.file_plans.specs.declared.refusal.Refusal.TheVariants as refusal;
ghost use Rattle.file_plans.specs.Plans.{Follows, Meets, unless, each_at};
ghost use Rattle.meaning_tool.specs.Subjects.{language_of, module_at};

use cap_words::Items;
use command_words::{Ending, PartWord};
use file_plans::{Refusal, Stop, read};
use outside_io::Files;
use proc_language::{Dialect, Module};
use proc_sources::{SourceFault, module_of};
use std::alloc::Global;

fn language_of(ending: Ending) -> Dialect
    ensures { result ≡ language_of ending }
{
    ending.dialect().unwrap_or(Dialect::Plain)
}

// The module that a text in this language spells, with its names resolved.
fn form(alloc: Global, index: u32, dialect: Dialect, text: &[u8]) -> Result<Module, Stop>
    requires { length text.now < 2 ^ 32 }
    ensures exact { Meets (unless (refusal.Source index) (module_in dialect text.now)) result }
    ensures fine { IfOk result (λ m. name_faults m ≡ []) }
{
    match module_of(alloc, dialect, text) {
        Ok(module) => Ok(module),
        Err(SourceFault::NoMemory) => Err(Stop::NoMemory),
        Err(fault) => Err(Stop::Refused(Refusal::Source(index, fault))),
    }
}

/// The module of a part word: of a source with tokens what is left of it without them.
///
/// It stops where the file can't be read or is too long, and where the text is no module, a name leads
/// nowhere or a token isn't spent just once, in this order; or where memory is refused.
#[tactic(auto, using(file_plans::proofs::Offers::follows_end), unfolding(crate::specs::Subjects::module_at))]
pub fn module<F: Files>(
    alloc: Global,
    files: &mut F,
    index: u32,
    word: &PartWord<'_>,
) -> Result<Module, Stop>
    ensures is { Follows (module_at index word.now) (F.seen files.old) result (F.seen files.new) }
    ensures fine { IfOk result (λ m. name_faults m ≡ []) }
{
    let text = read(alloc, files, &word.name, index)?;
    form(alloc, index, language_of(word.ending), text.as_slice())
}

/// The modules of part words, one after another.
pub(crate) fn modules<F: Files>(
    alloc: Global,
    files: &mut F,
    words: &[PartWord<'_>],
) -> Result<Items<Module>, Stop>
    requires few { length words.now ≤ MOST_PARTS }
    ensures are { Follows (each_at module_at 0 words.now) (F.seen files.old) result (F.seen files.new) }
    ensures count { IfOk result (λ modules. length modules ≡ length words.now) }
{
    let mut modules = Vec::new(alloc);
    let mut index = 0;
    for word in words {
        let module = module(alloc, files, index, word)?;
        modules.push(module)?;
        index += 1;
    }
    Ok(Items::of(modules))
}
