//! The parts of the words: each read, in its form, and by its own rules.
ghost use Rattle.std.specs.Prelude.{◌≡◌, ◌<◌, ◌≤◌, ◌^◌, IfOk, length};
ghost use Rattle.component_file.specs.Reading.{decoded};
ghost use Rattle.command_words.specs.declared.TheConstants.{MOST_PARTS};
ghost use Rattle.assembler.specs.Assembled.{assembled};
ghost use Rattle.file_plans.specs.declared.refusal.Refusal.TheVariants as refusal;
ghost use Rattle.file_plans.specs.Plans.{Follows, Meets, unless, each_at};
ghost use Rattle.proc_sources.specs.Sources.{sourced};
ghost use Rattle.linked_starts.specs.Accepted.{accepted};
ghost use Rattle.command_words.specs.Part.{is_trusted_mark};
ghost use Rattle.link_tool.specs.Parts.{broken_in, form_by, component_at, part_at};

use assembler::{AsmFault, assemble};
use cap_words::Items;
use command_words::{Ending, Mark, PartWord};
use component_file::{Component, FileFault, decode_component};
use component_linker::{Part, RuleAt, accept};
use file_plans::{Refusal, Stop, read};
use outside_io::Files;
use proc_language::Dialect;
use proc_sources::{SourceFault, component_of};
use std::alloc::Global;

// The component that the bytes of a file spell.
fn decode_at(alloc: Global, index: u32, bytes: &[u8]) -> Result<Component, Stop>
    requires { length bytes.now < 2 ^ 32 }
    ensures { Meets (unless (refusal.File index) (decoded bytes.now)) result }
{
    match decode_component(alloc, bytes) {
        Ok(component) => Ok(component),
        Err(FileFault::NoMemory) => Err(Stop::NoMemory),
        Err(fault) => Err(Stop::Refused(Refusal::File(index, fault))),
    }
}

// The component that an assembler text spells.
fn assemble_at(alloc: Global, index: u32, text: &[u8]) -> Result<Component, Stop>
    requires { length text.now < 2 ^ 32 }
    ensures { Meets (unless (refusal.Assembly index) (assembled text.now)) result }
{
    match assemble(alloc, text) {
        Ok(component) => Ok(component),
        Err(AsmFault::NoMemory) => Err(Stop::NoMemory),
        Err(fault) => Err(Stop::Refused(Refusal::Assembly(index, fault))),
    }
}

/// The component of a source in this language.
pub(crate) fn compile_at(
    alloc: Global,
    index: u32,
    dialect: Dialect,
    text: &[u8],
) -> Result<Component, Stop>
    requires { length text.now < 2 ^ 32 }
    ensures { Meets (unless (refusal.Source index) (sourced dialect text.now)) result }
{
    match component_of(alloc, dialect, text) {
        Ok(component) => Ok(component),
        Err(SourceFault::NoMemory) => Err(Stop::NoMemory),
        Err(fault) => Err(Stop::Refused(Refusal::Source(index, fault))),
    }
}

// The component that the bytes of a part are in their form.
fn form(alloc: Global, ending: Ending, index: u32, bytes: &[u8]) -> Result<Component, Stop>
    requires { length bytes.now < 2 ^ 32 }
    ensures { Meets (form_by ending index bytes.now) result }
{
    match ending {
        Ending::Source(dialect) => compile_at(alloc, index, dialect, bytes),
        Ending::Assembler => assemble_at(alloc, index, bytes),
        Ending::Component => decode_at(alloc, index, bytes),
    }
}

/// The component of a part word, of which no rule is asked. `index` is what a refusal tells of the part.
///
/// It stops where the file can't be read or is too long, and where its bytes have not the form that the
/// name's ending says, in this order; or where memory is refused.
#[tactic(auto, using(file_plans::proofs::Offers::follows_end), unfolding(crate::specs::Parts::component_at))]
pub fn component<F: Files>(
    alloc: Global,
    files: &mut F,
    index: u32,
    word: &PartWord<'_>,
) -> Result<Component, Stop>
    ensures { Follows (component_at index word.now) (F.seen files.old) result (F.seen files.new) }
{
    let bytes = read(alloc, files, &word.name, index)?;
    form(alloc, word.ending, index, bytes.as_slice())
}

fn is_trusted(mark: Mark) -> bool
    ensures { result ≡ is_trusted_mark mark }
{
    mark == Mark::Trusted
}

/// The part of a component that keeps its own rules.
pub(crate) fn accept_at(component: Component, index: u32, trusted: bool) -> Result<Part, Stop>
    ensures { Meets (unless (broken_in index)
        (accepted (record { component = component; trusted = trusted }))) result }
{
    match accept(component, trusted) {
        Ok(part) => Ok(part),
        Err(broken) => Err(Stop::Refused(Refusal::Rule(RuleAt {
            rule: broken.rule,
            part: index,
            place: broken.place,
        }))),
    }
}

/// The part of a part word: its component, which keeps its own rules (`docs/RULES.md`: C, and K where it is
/// trusted). `index` is what a refusal tells of the part.
///
/// It stops where [`component`] does, and then at the first rule that is broken, at its first place.
#[tactic(auto, using(file_plans::proofs::Offers::follows_end), unfolding(crate::specs::Parts::part_at))]
pub fn part<F: Files>(
    alloc: Global,
    files: &mut F,
    index: u32,
    word: &PartWord<'_>,
) -> Result<Part, Stop>
    ensures { Follows (part_at index word.now) (F.seen files.old) result (F.seen files.new) }
{
    let component = component(alloc, files, index, word)?;
    accept_at(component, index, is_trusted(word.mark))
}

/// The parts of part words, one after another.
pub(crate) fn parts<F: Files>(
    alloc: Global,
    files: &mut F,
    words: &[PartWord<'_>],
) -> Result<Items<Part>, Stop>
    requires few { length words.now ≤ MOST_PARTS }
    ensures are { Follows (each_at part_at 0 words.now) (F.seen files.old) result (F.seen files.new) }
    ensures count { IfOk result (λ parts. length parts ≡ length words.now) }
{
    let mut parts = Vec::new(alloc);
    let mut index = 0;
    for word in words {
        let part = part(alloc, files, index, word)?;
        parts.push(part)?;
        index += 1;
    }
    Ok(Items::of(parts))
}
