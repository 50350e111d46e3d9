//! Images from bytes: parts in their form, each by its own rules.
ghost use Rattle.std.specs.Prelude.{◌≡◌, ◌<◌, ◌^◌, length};
ghost use Rattle.readers.specs.Answers.{Gives, AnswersUnlessRefused, GivesUnlessRefused};
ghost use Rattle.readers.specs.Readers.{told_by};
ghost use Rattle.component_file.specs.Reading.{next_flag, decoded};
ghost use Rattle.linked_starts.specs.Accepted.{accepted};
ghost use Rattle.image_loader.specs.Fault.{in_part, broken_in, is_refusal};
ghost use Rattle.image_loader.specs.Reading.{next_header, next_count, part_in_bytes, next_part};
ghost use Rattle.image_loader.specs.Reading.{next_parts, next_image, image_of};

use crate::VERSION;
use crate::fault::ImageFault;
use cap_words::{Cursor, FieldFault, Items};
use component_file::{Component, FileFault, decode_component};
use component_linker::{MOST_PARTS, Part, RuleAt, accept};
use std::alloc::Global;

// What an image is made of.
#[derive(Drop)]
pub(crate) struct Image {
    // the words of the stack with which the parts are linked
    pub(crate) stack: u32,
    pub(crate) parts: Items<Part>,
}

// `STKI`, and version 1 of the form.
#[tactic(auto, unfolding(crate::specs::Reading::next_header, readers::specs::Readers::telling))]
fn header(bytes: &mut Cursor<'_>) -> Result<(), ImageFault>
    ensures { GivesUnlessRefused is_refusal result bytes.new (next_header bytes.old) }
{
    if bytes.bytes(4)? != b"STKI".as_slice() {
        return Err(ImageFault::Magic);
    }
    if bytes.u16()? != VERSION {
        return Err(ImageFault::Version);
    }
    Ok(())
}

// Whether the part is trusted.
#[tactic(auto, unfolding(cap_words::specs::Reading::meant))]
fn mark(bytes: &mut Cursor<'_>) -> Result<bool, FieldFault>
    ensures { Gives result bytes.new (next_flag bytes.old) }
{
    let at = bytes.at();
    match bytes.byte()? {
        0 => Ok(false),
        1 => Ok(true),
        _ => Err(FieldFault::BadField(at)),
    }
}

// How many parts there are.
#[tactic(auto, unfolding(cap_words::specs::Reading::meant))]
fn count(bytes: &mut Cursor<'_>) -> Result<u16, FieldFault>
    ensures { Gives result bytes.new (next_count bytes.old) }
{
    let at = bytes.at();
    let count = bytes.u16()?;
    if 1 <= count && usize::from(count) <= MOST_PARTS {
        Ok(count)
    } else {
        Err(FieldFault::BadField(at))
    }
}

// The component of a part in its form.
fn component(alloc: Global, index: u32, bytes: &[u8]) -> Result<Component, ImageFault>
    requires { length bytes.now < 2 ^ 32 }
    ensures { AnswersUnlessRefused is_refusal result (told_by (in_part index) (decoded bytes.now)) }
{
    match decode_component(alloc, bytes) {
        Ok(component) => Ok(component),
        Err(FileFault::NoMemory) => Err(ImageFault::NoMemory),
        Err(fault) => Err(ImageFault::File(index, fault)),
    }
}

// The part of a component that keeps its own rules.
fn part_by_rules(component: Component, index: u32, trusted: bool) -> Result<Part, ImageFault>
    ensures { result ≡ told_by (broken_in index)
        (accepted (record { component = component; trusted = trusted })) }
{
    match accept(component, trusted) {
        Ok(part) => Ok(part),
        Err(broken) => Err(ImageFault::Rule(RuleAt {
            rule: broken.rule,
            part: index,
            place: broken.place,
        })),
    }
}

#[tactic(auto, unfolding(crate::specs::Reading::part_in_bytes))]
fn part_of(alloc: Global, index: u32, trusted: bool, bytes: &[u8]) -> Result<Part, ImageFault>
    requires { length bytes.now < 2 ^ 32 }
    ensures { AnswersUnlessRefused is_refusal result (part_in_bytes index trusted bytes.now) }
{
    let component = component(alloc, index, bytes)?;
    part_by_rules(component, index, trusted)
}

// The part with this index: its header, its form and its own rules. Its bytes are taken as they
// stand in the image, so no memory is asked for by the length that is told.
#[tactic(auto, unfolding(crate::specs::Reading::next_part, readers::specs::Readers::telling))]
fn part(alloc: Global, index: u32, bytes: &mut Cursor<'_>) -> Result<Part, ImageFault>
    ensures { GivesUnlessRefused is_refusal result bytes.new (next_part index bytes.old) }
{
    let trusted = mark(bytes)?;
    let len = bytes.u32()?;
    let component = bytes.bytes(len as usize)?;
    part_of(alloc, index, trusted, component)
}

fn parts(alloc: Global, count: u16, bytes: &mut Cursor<'_>) -> Result<Items<Part>, ImageFault>
    ensures { GivesUnlessRefused is_refusal result bytes.new (next_parts 0 count bytes.old) }
{
    let mut parts = Vec::new(alloc);
    for index in 0..count {
        let part = part(alloc, u32::from(index), bytes)?;
        parts.push(part)?;
    }
    Ok(Items::of(parts))
}

#[tactic(auto, unfolding(crate::specs::Reading::next_image, readers::specs::Readers::telling))]
fn next_image(alloc: Global, bytes: &mut Cursor<'_>) -> Result<Image, ImageFault>
    ensures { GivesUnlessRefused is_refusal result bytes.new (next_image bytes.old) }
{
    header(bytes)?;
    let stack = bytes.u32()?;
    let count = count(bytes)?;
    let parts = parts(alloc, count, bytes)?;
    Ok(Image { stack, parts })
}

// The image that all the bytes spell.
#[tactic(auto, unfolding(crate::specs::Reading::image_of))]
pub(crate) fn whole(alloc: Global, bytes: &[u8]) -> Result<Image, ImageFault>
    requires { length bytes.now < 2 ^ 32 }
    ensures { AnswersUnlessRefused is_refusal result (image_of bytes.now) }
{
    let mut cursor = Cursor::of(bytes);
    let image = next_image(alloc, &mut cursor)?;
    if cursor.is_at_end() {
        Ok(image)
    } else {
        Err(ImageFault::Trailing(cursor.at()))
    }
}
