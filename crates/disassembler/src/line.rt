//! The pieces of a line: a directive, operands, the newline.
ghost use Rattle.std.specs.Prelude.{◌≡◌, ◌++◌, ◌∷◌, decimal, OnOk};
ghost use Rattle.std.specs.Fmt.{signed_decimal};
ghost use Rattle.asm_fields.specs.Fields.{dot};
ghost use Rattle.asm_fields.specs.Directives.{directive_name};
ghost use Rattle.cap_words.specs.Text.{field_text, newline};

use asm_fields::{Directive, ItemKind};
use itoa::Buffer;
use std::alloc::AllocError;

/// Begins a line with a directive.
pub(crate) fn begin(text: &mut Vec<u8>, directive: Directive) -> Result<(), AllocError>
    ensures { OnOk result (text.new.items ≡ text.old.items ++ dot ∷ directive_name directive) }
{
    text.push(b'.')?;
    text.extend_from_slice(directive.name().as_bytes())
}

/// Begins a line with the directive of an item.
pub(crate) fn begin_item(text: &mut Vec<u8>, item: ItemKind) -> Result<(), AllocError>
    ensures { OnOk result (text.new.items ≡ text.old.items ++ dot ∷ directive_name (Directive.Of item)) }
{
    begin(text, Directive::Of(item))
}

/// Appends a blank and an operand.
pub(crate) fn push_operand(text: &mut Vec<u8>, operand: &[u8]) -> Result<(), AllocError>
    ensures { OnOk result (text.new.items ≡ text.old.items ++ field_text operand.now) }
{
    text.push(b' ')?;
    text.extend_from_slice(operand)
}

/// Appends a blank and a number.
pub(crate) fn push_number(text: &mut Vec<u8>, number: u32) -> Result<(), AllocError>
    ensures { OnOk result (text.new.items ≡ text.old.items ++ field_text (decimal number)) }
{
    let mut digits = Buffer::new();
    push_operand(text, digits.format(number).as_bytes())
}

/// Appends a blank and an integer, with a `-` where it is negative.
pub(crate) fn push_integer(text: &mut Vec<u8>, integer: i64) -> Result<(), AllocError>
    ensures { OnOk result (text.new.items ≡ text.old.items ++ field_text (signed_decimal integer)) }
{
    let mut digits = Buffer::new();
    push_operand(text, digits.format(integer).as_bytes())
}

/// Ends a line.
pub(crate) fn end(text: &mut Vec<u8>) -> Result<(), AllocError>
    ensures { OnOk result (text.new.items ≡ text.old.items ++ newline) }
{
    Ok(text.push(b'\n')?)
}
