//! What links: its start, or its image, of parts or of an image's file.
ghost use Rattle.std.specs.Prelude.{◌≡◌, ◌<◌, ◌≤◌, ◌^◌, Ok, IfOk, length};
ghost use Rattle.command_words.specs.declared.TheConstants.{MOST_PARTS};
ghost use Rattle.image_loader.specs.Image.{ImageSeen, SpellsImage};
ghost use Rattle.file_plans.specs.declared.refusal.Refusal.TheVariants.{Rule, Image};
ghost use Rattle.file_plans.specs.Plans.{Meets, unless};
ghost use Rattle.linked_starts.specs.LinkedStarts.{IsStartOf};
ghost use Rattle.link_tool.specs.Parts.{linked, loaded};
ghost use Rattle.link_tool.specs.Linked.{parts_plan, image_plan, linked_plan};
ghost use Rattle.link_tool.specs.Linked.{without, FollowsStart, FollowsImage, MeetsStart};

use crate::parts::parts;
use cap_words::Items;
use command_words::{FileName, Linked, PartWord};
use component_linker::{LinkFault, Part, Start, link};
use file_plans::{Refusal, Stop, read};
use image_loader::{ImageFault, load_image, write_image};
use outside_io::Files;
use std::alloc::Global;

/// The start of parts that keep the rules of linking.
pub(crate) fn start_of(alloc: Global, parts: &Items<Part>, size: u32) -> Result<Start, Stop>
    requires { length parts.now < 2 ^ 32 }
    ensures rules { Meets (unless Rule (linked parts.now size)) (without result) }
    ensures linked { IfOk result (IsStartOf parts.now size) }
{
    match link(alloc, parts.as_slice(), size) {
        Ok(start) => Ok(start),
        Err(LinkFault::Rule(broken)) => Err(Stop::Refused(Refusal::Rule(broken))),
        Err(LinkFault::NoMemory) => Err(Stop::NoMemory),
    }
}

// Reads the parts, and links them.
fn link_parts<F: Files>(
    alloc: Global,
    files: &mut F,
    words: &[PartWord<'_>],
    size: u32,
) -> Result<Start, Stop>
    requires few { length words.now ≤ MOST_PARTS }
    ensures { FollowsStart (parts_plan words.now size) (F.seen files.old) result (F.seen files.new) }
{
    let parts = parts(alloc, files, words)?;
    start_of(alloc, &parts, size)
}

// The start of the image that these bytes spell.
fn load(alloc: Global, bytes: &[u8]) -> Result<Start, Stop>
    requires { length bytes.now < 2 ^ 32 }
    ensures start { MeetsStart (unless Image (loaded bytes.now)) result }
    ensures spelled { IfOk result (λ _.
        (i : ImageSeen) × (loaded bytes.now ≡ Ok i) × SpellsImage bytes.now i) }
{
    match load_image(alloc, bytes) {
        Ok(start) => Ok(start),
        Err(ImageFault::NoMemory) => Err(Stop::NoMemory),
        Err(fault) => Err(Stop::Refused(Refusal::Image(fault))),
    }
}

// Reads the image, and links its parts.
#[tactic(auto, using(file_plans::proofs::Offers::follows_end), unfolding(crate::specs::Linked::image_plan))]
fn link_image<F: Files>(alloc: Global, files: &mut F, name: &FileName<'_>) -> Result<Start, Stop>
    ensures { FollowsStart (image_plan name.now) (F.seen files.old) result (F.seen files.new) }
{
    let bytes = read(alloc, files, name, 0)?;
    load(alloc, bytes.as_slice())
}

/// The start of what links: of the parts of words, each read in its turn, or of an image's file.
///
/// Of words it stops where one of their parts does, and then at the first rule of linking that is broken
/// (`docs/RULES.md`: L). Of an image it stops where the file can't be read or is too long, and where its
/// bytes are no image, a part of it breaks a rule of its own, or its parts one of linking, in this order. Or
/// it stops where memory is refused.
pub fn start<F: Files>(alloc: Global, files: &mut F, what: &Linked<'_>) -> Result<Start, Stop>
    ensures { FollowsStart (linked_plan what.now) (F.seen files.old) result (F.seen files.new) }
{
    match what {
        Linked::Parts(words, size) => link_parts(alloc, files, words.as_slice(), *size),
        Linked::Image(name) => link_image(alloc, files, name),
    }
}

// The bytes of the image of parts that keep the rules of linking. Their start is made and let go.
fn linked_bytes(alloc: Global, parts: &Items<Part>, size: u32) -> Result<Items<u8>, Stop>
    requires some { 1 ≤ length parts.now }
    requires few { length parts.now ≤ MOST_PARTS }
    ensures rules { Meets (unless Rule (linked parts.now size)) (without result) }
    ensures bytes { IfOk result (λ bytes. SpellsImage bytes (record { stack = size; parts = parts.now })) }
{
    start_of(alloc, parts, size)?;
    let bytes = write_image(alloc, parts.as_slice(), size)?;
    Ok(Items::of(bytes))
}

// Reads the parts, and makes their image.
fn make_image<F: Files>(
    alloc: Global,
    files: &mut F,
    words: &[PartWord<'_>],
    size: u32,
) -> Result<Items<u8>, Stop>
    requires some { 1 ≤ length words.now }
    requires few { length words.now ≤ MOST_PARTS }
    ensures { FollowsImage (parts_plan words.now size) (F.seen files.old) result (F.seen files.new) }
{
    let parts = parts(alloc, files, words)?;
    linked_bytes(alloc, &parts, size)
}

// Reads the image: its bytes are its own spelling.
#[tactic(auto, using(file_plans::proofs::Offers::follows_end), unfolding(crate::specs::Linked::image_plan))]
fn read_image<F: Files>(
    alloc: Global,
    files: &mut F,
    name: &FileName<'_>,
) -> Result<Items<u8>, Stop>
    ensures { FollowsImage (image_plan name.now) (F.seen files.old) result (F.seen files.new) }
{
    let bytes = read(alloc, files, name, 0)?;
    load(alloc, bytes.as_slice())?;
    Ok(bytes)
}

/// The bytes of the image of what links. They are loaded as just this image, whatever their length.
///
/// It stops where [`start`] does.
pub fn image_bytes<F: Files>(
    alloc: Global,
    files: &mut F,
    what: &Linked<'_>,
) -> Result<Items<u8>, Stop>
    ensures { FollowsImage (linked_plan what.now) (F.seen files.old) result (F.seen files.new) }
{
    match what {
        Linked::Parts(words, size) => make_image(alloc, files, words.as_slice(), *size),
        Linked::Image(name) => read_image(alloc, files, name),
    }
}
