//! Images to bytes.
ghost use Rattle.std.specs.Prelude.{◌≡◌, ◌≤◌, ◌++◌, length, OnOk, IfOk};
ghost use Rattle.std.specs.List.{flat_map, AllByRecursion};
ghost use Rattle.linked_starts.specs.Parts.{IsPart};
ghost use Rattle.image_loader.specs.Image.{part_bytes, SpellsImage};

use crate::VERSION;
use cap_words::{push_u16, push_u32};
use component_file::encode_component;
use component_linker::{MOST_PARTS, Part};
use std::alloc::{AllocError, Global};

// Whether it is trusted, the length of its component, and the component.
#[tactic(auto, unfolding(crate::specs::Image::part_bytes))]
fn push_part(alloc: Global, out: &mut Vec<u8>, part: &Part) -> Result<(), AllocError>
    ensures spelled { OnOk result (out.new.items ≡ out.old.items ++ part_bytes part.now) }
    ensures kept { OnOk result (IsPart part.now) }
{
    let component = encode_component(alloc, part.component())?;
    out.push(u8::from(part.trusted()))?;
    push_u32(out, component.len() as u32)?;
    out.extend_from_slice(&component)
}

// The parts, one after another.
fn push_parts(alloc: Global, out: &mut Vec<u8>, parts: &[Part]) -> Result<(), AllocError>
    ensures spelled { OnOk result (out.new.items ≡ out.old.items ++ flat_map part_bytes parts.now) }
    ensures kept { OnOk result (AllByRecursion IsPart parts.now) }
{
    for part in parts {
        push_part(alloc, out, part)?;
    }
    Ok(())
}

/// The image of parts that are to be linked with a stack of this many words: its one spelling.
/// docs/FORMATS.md has the form. Whether the parts can be linked isn't asked.
#[tactic(auto, unfolding(crate::specs::Image::image_bytes))]
pub fn write_image(alloc: Global, parts: &[Part], stack: u32) -> Result<Vec<u8>, AllocError>
    requires some { 1 ≤ length parts.now }
    requires few { length parts.now ≤ MOST_PARTS }
    ensures { IfOk result (λ v. SpellsImage v.items (record { stack = stack; parts = parts.now })) }
{
    let mut out = Vec::new(alloc);
    out.extend_from_slice(b"STKI")?;
    push_u16(&mut out, VERSION)?;
    push_u32(&mut out, stack)?;
    push_u16(&mut out, parts.len() as u16)?;
    push_parts(alloc, &mut out, parts)?;
    Ok(out)
}
