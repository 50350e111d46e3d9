//! The lines of data and of items that may be many or missing.
ghost use Rattle.std.specs.Prelude.{◌≡◌, ◌++◌, ℕ, List, [], ◌∷◌, decimal, OnOk};
ghost use Rattle.std.specs.List.{flat_map};
ghost use Rattle.cap_words.specs.Text.{field_text};
ghost use Rattle.disassembler.specs.Disassembled.{item_line, flag_line, word_line};
ghost use Rattle.disassembler.specs.Disassembled.{stretch_line};
ghost use Rattle.disassembler.specs.Disassembled.{optional_line, import_line, export_line, site_line};
ghost use Rattle.disassembler.specs.Disassembled.{kind_fields, row_line};

use crate::line::{begin_item, end, push_number, push_operand};
use crate::words::push_word;
use asm_fields::{ItemKind, kind_name, ownership};
use cap_words::Word;
use component_file::{Export, Import, Kind, KindRow};
use std::alloc::AllocError;

/// What has a line.
pub(crate) trait Listed {
    // its line
    ghost line: { Self → List ℕ };

    /// Appends its line.
    fn push_line(&self, text: &mut Vec<u8>) -> Result<(), AllocError>
        ensures { OnOk result (text.new.items ≡ text.old.items ++ line self.now) };
}

// A word of the data.
impl Listed for Word {
    ghost line = { word_line };

    fn push_line(&self, text: &mut Vec<u8>) -> Result<(), AllocError> {
        push_word(text, self)
    }
}

impl Listed for Import {
    ghost line = { import_line };

    fn push_line(&self, text: &mut Vec<u8>) -> Result<(), AllocError> {
        begin_item(text, ItemKind::Import)?;
        push_operand(text, self.part.as_slice())?;
        push_operand(text, self.name.as_slice())?;
        push_number(text, self.slot)?;
        end(text)
    }
}

impl Listed for Export {
    ghost line = { export_line };

    fn push_line(&self, text: &mut Vec<u8>) -> Result<(), AllocError> {
        begin_item(text, ItemKind::Export)?;
        push_operand(text, self.name.as_slice())?;
        push_number(text, self.offset)?;
        push_operand(text, ownership(self.shared).as_bytes())?;
        end(text)
    }
}

// The offset of a site.
impl Listed for u32 {
    ghost line = { site_line };

    fn push_line(&self, text: &mut Vec<u8>) -> Result<(), AllocError> {
        begin_item(text, ItemKind::Site)?;
        push_number(text, *self)?;
        end(text)
    }
}

impl Listed for KindRow {
    ghost line = { row_line };

    fn push_line(&self, text: &mut Vec<u8>) -> Result<(), AllocError> {
        begin_item(text, ItemKind::Row)?;
        push_number(text, self.offset)?;
        push_kinds(text, &self.kinds)?;
        end(text)
    }
}

// The name of a kind, and the offset after `pc`.
fn push_kind(text: &mut Vec<u8>, kind: Kind) -> Result<(), AllocError>
    ensures { OnOk result (text.new.items ≡ text.old.items ++ flat_map field_text (kind_fields kind)) }
{
    push_operand(text, kind_name(kind).as_bytes())?;
    match kind {
        Kind::Pc(offset) => push_number(text, offset),
        _ => Ok(()),
    }
}

fn push_kinds(text: &mut Vec<u8>, kinds: &[Kind]) -> Result<(), AllocError>
    ensures { OnOk result
        (text.new.items ≡ text.old.items ++ flat_map field_text (flat_map kind_fields kinds.now)) }
{
    for kind in kinds {
        push_kind(text, *kind)?;
    }
    Ok(())
}

/// Appends the line of each.
pub(crate) fn push_lines<T: Listed>(text: &mut Vec<u8>, items: &[T]) -> Result<(), AllocError>
    ensures { OnOk result (text.new.items ≡ text.old.items ++ flat_map T.line items.now) }
{
    for item in items {
        item.push_line(text)?;
    }
    Ok(())
}

/// Appends the line of a range, or nothing where nothing is counted.
pub(crate) fn push_stretch(
    text: &mut Vec<u8>,
    item: ItemKind,
    base: u32,
    count: u32,
) -> Result<(), AllocError>
    ensures { OnOk result (text.new.items ≡ text.old.items ++ stretch_line item base count) }
{
    if count == 0 {
        return Ok(());
    }
    begin_item(text, item)?;
    push_number(text, base)?;
    push_number(text, count)?;
    end(text)
}

/// Appends the line of an item without operands, or nothing where it isn't so.
pub(crate) fn push_flag(text: &mut Vec<u8>, item: ItemKind, is_so: bool) -> Result<(), AllocError>
    ensures { OnOk result (text.new.items ≡ text.old.items ++ flag_line item is_so) }
{
    if !is_so {
        return Ok(());
    }
    begin_item(text, item)?;
    end(text)
}

/// Appends the line of an item that is one number.
pub(crate) fn push_single(text: &mut Vec<u8>, item: ItemKind, number: u32) -> Result<(), AllocError>
    ensures { OnOk result (text.new.items ≡ text.old.items ++ item_line item (decimal number ∷ [])) }
{
    begin_item(text, item)?;
    push_number(text, number)?;
    end(text)
}

/// Appends the line of an offset, or nothing where it is missing.
pub(crate) fn push_optional(
    text: &mut Vec<u8>,
    item: ItemKind,
    offset: Option<u32>,
) -> Result<(), AllocError>
    ensures { OnOk result (text.new.items ≡ text.old.items ++ optional_line item offset) }
{
    match offset {
        Some(offset) => push_single(text, item, offset),
        None => Ok(()),
    }
}
