//! The pieces of a line: words, fields after a blank, the newline.
ghost use Rattle.std.specs.Prelude.{◌≡◌, ◌++◌, decimal, OnOk};
ghost use Rattle.std.specs.Fmt.{signed_decimal};
ghost use Rattle.cap_words.specs.Text.{field_text, newline};
ghost use Rattle.proc_meaning.specs.Text.{out_arg_text};

use itoa::Buffer;
use source_events::OutArg;
use std::alloc::AllocError;

/// Appends a text.
pub(crate) fn push(text: &mut Vec<u8>, piece: &str) -> Result<(), AllocError>
    ensures { OnOk result (text.new.items ≡ text.old.items ++ piece.now) }
{
    text.extend_from_slice(piece.as_bytes())
}

/// Appends a blank and a field.
pub(crate) fn push_field(text: &mut Vec<u8>, bytes: &[u8]) -> Result<(), AllocError>
    ensures { OnOk result (text.new.items ≡ text.old.items ++ field_text bytes.now) }
{
    text.push(b' ')?;
    text.extend_from_slice(bytes)
}

/// Appends a blank and a number.
pub(crate) fn push_number(text: &mut Vec<u8>, number: u64) -> Result<(), AllocError>
    ensures { OnOk result (text.new.items ≡ text.old.items ++ field_text (decimal number)) }
{
    let mut digits = Buffer::new();
    push_field(text, digits.format(number).as_bytes())
}

/// Appends a blank and an integer, with a `-` where it is negative.
pub(crate) fn push_integer(text: &mut Vec<u8>, integer: i64) -> Result<(), AllocError>
    ensures { OnOk result (text.new.items ≡ text.old.items ++ field_text (signed_decimal integer)) }
{
    let mut digits = Buffer::new();
    push_field(text, digits.format(integer).as_bytes())
}

/// Appends a blank and what a register holds.
pub(crate) fn push_arg(text: &mut Vec<u8>, arg: OutArg) -> Result<(), AllocError>
    ensures { OnOk result (text.new.items ≡ text.old.items ++ field_text (out_arg_text arg)) }
{
    match arg {
        OutArg::Int(integer) => push_integer(text, integer),
        OutArg::Half => push_field(text, b"half"),
    }
}

/// Ends a line.
pub(crate) fn end_line(text: &mut Vec<u8>) -> Result<(), AllocError>
    ensures { OnOk result (text.new.items ≡ text.old.items ++ newline) }
{
    Ok(text.push(b'\n')?)
}
