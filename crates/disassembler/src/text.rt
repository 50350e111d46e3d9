//! The text of a component.
ghost use Rattle.std.specs.Prelude.{◌≡◌, ◌++◌, ◌∷◌, [], ◌<◌, ◌^◌, length, Ok, OnOk, IfOk};
ghost use Rattle.std.specs.List.{concat};
ghost use Rattle.assembler.specs.Assembled.{assembled};
ghost use Rattle.asm_fields.specs.declared.directives.ItemKind.TheVariants.{Name};
ghost use Rattle.disassembler.specs.Disassembled.{item_line, disassembled};
ghost use Rattle.disassembler.specs.Parts.{head_lines, memory_lines, table_lines};

use crate::line::{begin_item, end, push_operand};
use crate::tables::{push_flag, push_lines, push_optional, push_single, push_stretch};
use crate::words::push_code;
use asm_fields::ItemKind;
use component_file::{Component, ComponentFields};
use std::alloc::{AllocError, Global};

// The line of the part's name.
fn push_name(text: &mut Vec<u8>, name: &[u8]) -> Result<(), AllocError>
    ensures { OnOk result (text.new.items ≡ text.old.items ++ item_line Name (name.now ∷ [])) }
{
    begin_item(text, ItemKind::Name)?;
    push_operand(text, name)?;
    end(text)
}

// The lines in front of the code.
fn push_head(text: &mut Vec<u8>, fields: &ComponentFields) -> Result<(), AllocError>
    ensures { OnOk result (text.new.items ≡ text.old.items ++ concat (head_lines fields.now)) }
{
    push_name(text, fields.name.as_slice())?;
    push_single(text, ItemKind::Stack, fields.stack_base)?;
    push_single(text, ItemKind::Closure, fields.closure)?;
    push_flag(text, ItemKind::Movable, fields.movable)?;
    let seals = &fields.seals;
    push_stretch(text, ItemKind::Seals, seals.base(), seals.count())?;
    let linear = &fields.linear;
    push_stretch(text, ItemKind::Linear, linear.base, linear.count)?;
    Ok(())
}

// The code, and the data.
fn push_memory(text: &mut Vec<u8>, fields: &ComponentFields) -> Result<(), AllocError>
    ensures { OnOk result (text.new.items ≡ text.old.items ++ concat (memory_lines fields.now)) }
{
    push_single(text, ItemKind::Code, fields.code_base)?;
    push_code(text, fields.code.as_slice())?;
    push_single(text, ItemKind::Data, fields.data_base)?;
    push_lines(text, fields.data_words.as_slice())?;
    Ok(())
}

// The items after the data.
fn push_tables(text: &mut Vec<u8>, fields: &ComponentFields) -> Result<(), AllocError>
    ensures { OnOk result (text.new.items ≡ text.old.items ++ concat (table_lines fields.now)) }
{
    push_lines(text, fields.imports.as_slice())?;
    push_lines(text, fields.exports.as_slice())?;
    push_lines(text, fields.sites.as_slice())?;
    push_optional(text, ItemKind::Fail, fields.fail_at)?;
    push_optional(text, ItemKind::Literal, fields.literal_at)?;
    push_lines(text, fields.rows.as_slice())?;
    Ok(())
}

/// The text of a component: docs/ASSEMBLER.md has the form of texts. `assembler::assemble` gives the
/// component again.
///
/// Its items stand in their order, each in a line, with one blank between fields. A word of the code that
/// is an instruction is written as that, another integer as `.int`. Offsets are numbers: there are no
/// labels and no comments. `.movable` stands only where the component is, `.seals` and `.linear` only where
/// they count anything.
pub fn disassemble(alloc: Global, c: &Component) -> Result<Vec<u8>, AllocError>
    ensures text { IfOk result (λ text. text.items ≡ disassembled c.now) }
    // What it spells is the component.
    ensures again { IfOk result (λ text. assembled text.items ≡ Ok c.now) }
    // It is so short that it can be assembled.
    ensures short { IfOk result (λ text. length text.items < 2 ^ 32) }
{
    let fields = c.fields();
    let mut text = Vec::new(alloc);
    push_head(&mut text, fields)?;
    push_memory(&mut text, fields)?;
    push_tables(&mut text, fields)?;
    Ok(text)
}
