//! Loading an image.
ghost use Rattle.std.specs.Prelude.{◌≡◌, ◌<◌, ◌^◌, ◌⊎◌, length, IsOk, IfOk, Ok, Err};
ghost use Rattle.linked_starts.specs.Standing.{placed};
ghost use Rattle.linked_starts.specs.Pairs.{NoneIsBroken};
ghost use Rattle.linked_starts.specs.Links.{rules_of_link};
ghost use Rattle.linked_starts.specs.Answer.{AnswersParts};
ghost use Rattle.image_loader.specs.declared.fault.ImageFault.TheVariants.{NoMemory};
ghost use Rattle.image_loader.specs.declared.reading.Image.{Image};
ghost use Rattle.image_loader.specs.Image.{SpellsImage};
ghost use Rattle.image_loader.specs.Answer.{LoadsImage};

use crate::fault::ImageFault;
use crate::reading::whole;
use component_linker::{Start, link};
use std::alloc::Global;

/// The start of the parts that an image holds, linked with the stack size that it tells. Its parts
/// are decoded, accepted and linked anew: nothing that was found when it was written is believed.
/// docs/FORMATS.md has the form.
///
/// # Errors
///
/// The first fault, in this order: of the image's header; of each part in its turn, of its header,
/// then of its component's form, then the first rule that it breaks, C and of a trusted part K; of
/// the image's end; and last the first rule L that the parts break together.
/// [`ImageFault::NoMemory`] stands for any answer where memory was refused.
pub fn load_image(alloc: Global, bytes: &[u8]) -> Result<Start, ImageFault>
    requires { length bytes.now < 2 ^ 32 }
    // What is loaded is an image, and what linking answers of its parts.
    ensures found { IfOk result (λ s.
        (i : Image) × SpellsImage bytes.now i × AnswersParts i.parts i.stack (Ok s)) }
    // An image whose parts keep the rules L is loaded, unless memory is refused.
    ensures only { (i : Image) → SpellsImage bytes.now i →
        NoneIsBroken (rules_of_link (placed i.parts i.stack) i.stack) →
        IsOk result ⊎ (result ≡ Err NoMemory) }
    // Which fault it is.
    ensures exact { LoadsImage bytes.now result }
{
    let image = whole(alloc, bytes)?;
    let start = link(alloc, image.parts.as_slice(), image.stack)?;
    Ok(start)
}
