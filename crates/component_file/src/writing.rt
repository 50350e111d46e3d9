//! Components to bytes.
ghost use Rattle.std.specs.Prelude.{◌≡◌, ◌<◌, ◌^◌, ◌++◌, ℕ, List, [], length, OnOk, IfOk};
ghost use Rattle.std.specs.List.{concat, flat_map, AllByRecursion};
ghost use Rattle.cap_words.specs.WordBytes.{SealInSpace, word_bytes_of};
ghost use Rattle.component_file.specs.Spelling.{u32_bytes, name_bytes, stretch_bytes, list_bytes};
ghost use Rattle.component_file.specs.Spelling.{import_bytes, export_bytes, optional_bytes, kind_tag};
ghost use Rattle.component_file.specs.Spelling.{kind_bytes, row_bytes, version_of, SpellsComponent};
ghost use Rattle.component_file.specs.Spelling.{NamesAreShort, NameIsShort};
ghost use Rattle.component_file.specs.Spelling.{Always, spelling};
ghost use Rattle.component_file.specs.Parts.{head_pieces, memory_pieces, calls_pieces, declared_pieces};
ghost use Rattle.component_file.specs.Limits.{IsComponent};

use crate::component::{Component, ComponentFields, Export, Import, Kind, KindRow};
use crate::{FIXED_VERSION, MOVABLE_VERSION};
use cap_words::{Word, push_u16, push_u32, push_word};
use std::alloc::{AllocError, Global};

// What has a place in a list of a file.
trait Spelled {
    // its bytes
    ghost spelled: { Self → List ℕ };

    // what has bytes
    ghost can_write: { Self → Type 0 };

    // Appends its bytes.
    fn write(&self, out: &mut Vec<u8>) -> Result<(), AllocError>
        requires { can_write self.now }
        ensures { OnOk result (out.new.items ≡ out.old.items ++ spelled self.now) };
}

// A byte of length, and the bytes.
fn push_name(out: &mut Vec<u8>, text: &[u8]) -> Result<(), AllocError>
    requires { length text.now < 256 }
    ensures { OnOk result (out.new.items ≡ out.old.items ++ name_bytes text.now) }
{
    out.push(text.len() as u8)?;
    out.extend_from_slice(text)
}

// A count, and a base.
#[tactic(auto, unfolding(crate::specs::Spelling::stretch_bytes))]
fn push_stretch(out: &mut Vec<u8>, base: u32, count: u32) -> Result<(), AllocError>
    ensures { OnOk result (out.new.items ≡ out.old.items ++ stretch_bytes base count) }
{
    push_u32(out, count)?;
    push_u32(out, base)
}

// An offset that may be missing.
fn push_optional(out: &mut Vec<u8>, offset: Option<u32>) -> Result<(), AllocError>
    ensures { OnOk result (out.new.items ≡ out.old.items ++ optional_bytes offset) }
{
    match offset {
        Some(offset) => {
            out.push(1)?;
            push_u32(out, offset)
        }
        None => Ok(out.push(0)?),
    }
}

impl Spelled for Word {
    ghost spelled = { word_bytes_of };

    ghost can_write = { SealInSpace };

    fn write(&self, out: &mut Vec<u8>) -> Result<(), AllocError> {
        push_word(out, self)
    }
}

impl Spelled for Import {
    ghost spelled = { import_bytes };

    ghost can_write = { NamesAreShort };

    #[tactic(auto, unfolding(crate::specs::Spelling::import_bytes))]
    fn write(&self, out: &mut Vec<u8>) -> Result<(), AllocError> {
        push_name(out, self.part.as_slice())?;
        push_name(out, self.name.as_slice())?;
        push_u32(out, self.slot)
    }
}

impl Spelled for Export {
    ghost spelled = { export_bytes };

    ghost can_write = { NameIsShort };

    #[tactic(auto, unfolding(crate::specs::Spelling::export_bytes))]
    fn write(&self, out: &mut Vec<u8>) -> Result<(), AllocError> {
        push_name(out, self.name.as_slice())?;
        push_u32(out, self.offset)?;
        out.push(u8::from(self.shared))?;
        Ok(())
    }
}

// The offset of a site.
impl Spelled for u32 {
    ghost spelled = { u32_bytes };

    ghost can_write = { Always };

    fn write(&self, out: &mut Vec<u8>) -> Result<(), AllocError> {
        push_u32(out, *self)
    }
}

// The byte that tells a kind.
#[tactic(auto, unfolding(crate::specs::Spelling::kind_tag))]
fn kind_tag(kind: Kind) -> u8
    ensures { result ≡ kind_tag kind }
{
    match kind {
        Kind::Any => 0,
        Kind::Int => 1,
        Kind::DataCap => 2,
        Kind::Stk => 3,
        Kind::Pc(_) => 4,
        Kind::Top => 5,
    }
}

impl Spelled for Kind {
    ghost spelled = { kind_bytes };

    ghost can_write = { Always };

    #[tactic(auto, unfolding(crate::specs::Spelling::kind_tag))]
    fn write(&self, out: &mut Vec<u8>) -> Result<(), AllocError> {
        out.push(kind_tag(*self))?;
        match self {
            Kind::Pc(offset) => push_u32(out, *offset),
            _ => Ok(()),
        }
    }
}

impl Spelled for KindRow {
    ghost spelled = { row_bytes };

    ghost can_write = { Always };

    #[tactic(auto, unfolding(crate::specs::Spelling::row_bytes))]
    fn write(&self, out: &mut Vec<u8>) -> Result<(), AllocError> {
        push_u32(out, self.offset)?;
        push_items(out, &self.kinds)
    }
}

// The items, one after another.
fn push_items<T: Spelled>(out: &mut Vec<u8>, items: &[T]) -> Result<(), AllocError>
    requires { AllByRecursion T.can_write items.now }
    ensures { OnOk result (out.new.items ≡ out.old.items ++ flat_map T.spelled items.now) }
{
    for item in items {
        item.write(out)?;
    }
    Ok(())
}

// A count of 16 bits, and the items.
#[tactic(auto, unfolding(crate::specs::Spelling::list_bytes))]
fn push_short_list<T: Spelled>(out: &mut Vec<u8>, items: &[T]) -> Result<(), AllocError>
    requires few { length items.now < 2 ^ 16 }
    requires can_write { AllByRecursion T.can_write items.now }
    ensures { OnOk result (out.new.items ≡ out.old.items ++ list_bytes 2 T.spelled items.now) }
{
    push_u16(out, items.len() as u16)?;
    push_items(out, items)
}

// A count of 32 bits, and the items.
#[tactic(auto, unfolding(crate::specs::Spelling::list_bytes))]
fn push_long_list<T: Spelled>(out: &mut Vec<u8>, items: &[T]) -> Result<(), AllocError>
    requires few { length items.now < 2 ^ 32 }
    requires can_write { AllByRecursion T.can_write items.now }
    ensures { OnOk result (out.new.items ≡ out.old.items ++ list_bytes 4 T.spelled items.now) }
{
    push_u32(out, items.len() as u32)?;
    push_items(out, items)
}

fn version_of(movable: bool) -> u16
    ensures { result ≡ version_of movable }
{
    if movable {
        MOVABLE_VERSION
    } else {
        FIXED_VERSION
    }
}

// What stands in front of the code.
fn push_head(out: &mut Vec<u8>, fields: &ComponentFields) -> Result<(), AllocError>
    requires { IsComponent fields.now }
    ensures { OnOk result (out.new.items ≡ out.old.items ++ concat (head_pieces fields.now)) }
{
    out.extend_from_slice(b"STKC")?;
    push_u16(out, version_of(fields.movable))?;
    push_name(out, fields.name.as_slice())?;
    push_u32(out, fields.stack_base)?;
    push_u32(out, fields.closure)?;
    push_stretch(out, fields.seals.base(), fields.seals.count())?;
    push_stretch(out, fields.linear.base, fields.linear.count)?;
    Ok(())
}

// The code, and the data.
fn push_memory(out: &mut Vec<u8>, fields: &ComponentFields) -> Result<(), AllocError>
    requires { IsComponent fields.now }
    ensures { OnOk result (out.new.items ≡ out.old.items ++ concat (memory_pieces fields.now)) }
{
    push_u32(out, fields.code_base)?;
    push_long_list(out, fields.code.as_slice())?;
    push_u32(out, fields.data_base)?;
    push_long_list(out, fields.data_words.as_slice())?;
    Ok(())
}

// What it calls, and what others may call.
fn push_calls(out: &mut Vec<u8>, fields: &ComponentFields) -> Result<(), AllocError>
    requires { IsComponent fields.now }
    ensures { OnOk result (out.new.items ≡ out.old.items ++ concat (calls_pieces fields.now)) }
{
    push_short_list(out, fields.imports.as_slice())?;
    push_short_list(out, fields.exports.as_slice())?;
    push_short_list(out, fields.sites.as_slice())?;
    Ok(())
}

// What is declared of the code.
fn push_declared(out: &mut Vec<u8>, fields: &ComponentFields) -> Result<(), AllocError>
    requires { IsComponent fields.now }
    ensures { OnOk result (out.new.items ≡ out.old.items ++ concat (declared_pieces fields.now)) }
{
    push_optional(out, fields.fail_at)?;
    push_optional(out, fields.literal_at)?;
    push_long_list(out, fields.rows.as_slice())?;
    Ok(())
}

// The fields of a component, one after another.
fn push_fields(out: &mut Vec<u8>, fields: &ComponentFields) -> Result<(), AllocError>
    requires empty { out.old.items ≡ [] }
    requires fits { IsComponent fields.now }
    ensures { OnOk result (out.new.items ≡ spelling fields.now) }
{
    push_head(out, fields)?;
    push_memory(out, fields)?;
    push_calls(out, fields)?;
    push_declared(out, fields)?;
    Ok(())
}

/// The bytes of a component, which are its one spelling: docs/FORMATS.md has the form.
pub fn encode_component(alloc: Global, c: &Component) -> Result<Vec<u8>, AllocError>
    ensures spelled { IfOk result (λ v. SpellsComponent v.items c.now) }
    // So it can be decoded again.
    ensures short { IfOk result (λ v. length v.items < 2 ^ 32) }
{
    let mut out = Vec::new(alloc);
    push_fields(&mut out, c.fields())?;
    Ok(out)
}
