//! The pieces of a picture's text: words, numbers, escaped bytes, shapes.
ghost use Rattle.std.specs.Prelude.{◌≡◌, ◌++◌, decimal, OnOk};
ghost use Rattle.run_picture.specs.Shapes.{marked, escaped_byte, escaped, front_text, box_text};
ghost use Rattle.run_picture.specs.Shapes.{line_text, label_text};

use crate::class::Class;
use itoa::Buffer;
use std::alloc::AllocError;

/// Appends a text.
pub(crate) fn push(text: &mut Vec<u8>, piece: &str) -> Result<(), AllocError>
    ensures { OnOk result (text.new.items ≡ text.old.items ++ piece.now) }
{
    text.extend_from_slice(piece.as_bytes())
}

/// Appends a number.
pub(crate) fn push_number(text: &mut Vec<u8>, number: u64) -> Result<(), AllocError>
    ensures { OnOk result (text.new.items ≡ text.old.items ++ decimal number) }
{
    let mut digits = Buffer::new();
    push(text, digits.format(number))
}

/// Appends a mark and a number.
pub(crate) fn push_marked(text: &mut Vec<u8>, mark: &str, number: u64) -> Result<(), AllocError>
    ensures { OnOk result (text.new.items ≡ text.old.items ++ marked mark.now number) }
{
    push(text, mark)?;
    push_number(text, number)
}

// Appends a byte, or the reference to it.
fn push_byte(text: &mut Vec<u8>, byte: u8) -> Result<(), AllocError>
    ensures { OnOk result (text.new.items ≡ text.old.items ++ escaped_byte byte) }
{
    match byte {
        b'&' => push(text, "&amp;"),
        b'<' => push(text, "&lt;"),
        b'>' => push(text, "&gt;"),
        b'"' => push(text, "&quot;"),
        _ => Ok(text.push(byte)?),
    }
}

/// Appends bytes, of which `&`, `<`, `>` and `"` as references.
pub(crate) fn push_escaped(text: &mut Vec<u8>, bytes: &[u8]) -> Result<(), AllocError>
    ensures { OnOk result (text.new.items ≡ text.old.items ++ escaped bytes.now) }
{
    for byte in bytes {
        push_byte(text, *byte)?;
    }
    Ok(())
}

// Appends the front of an element, with its class.
fn push_front(text: &mut Vec<u8>, front: &str, class: Class) -> Result<(), AllocError>
    ensures { OnOk result (text.new.items ≡ text.old.items ++ front_text front.now class) }
{
    push(text, front)?;
    push(text, class.name())
}

/// Where a shape begins or ends.
#[derive(Clone, Copy)]
pub(crate) struct Point {
    /// To the right.
    pub(crate) x: u64,
    /// Downwards.
    pub(crate) y: u64,
}

/// Appends the rectangle between two corners, of which the first is the left one above.
#[tactic(auto, unfolding(crate::specs::Shapes::box_text))]
pub(crate) fn push_box(
    text: &mut Vec<u8>,
    class: Class,
    from: Point,
    to: Point,
) -> Result<(), AllocError>
    ensures { OnOk result (text.new.items ≡ text.old.items ++ box_text class from.x from.y to.x to.y) }
{
    push_front(text, "<path class=\"", class)?;
    push_marked(text, "\" d=\"M", from.x)?;
    push_marked(text, " ", from.y)?;
    push_marked(text, "H", to.x)?;
    push_marked(text, "V", to.y)?;
    push_marked(text, "H", from.x)?;
    push(text, "z\"/>")
}

/// Appends the line from a point to a point.
#[tactic(auto, unfolding(crate::specs::Shapes::line_text))]
pub(crate) fn push_line(
    text: &mut Vec<u8>,
    class: Class,
    from: Point,
    to: Point,
) -> Result<(), AllocError>
    ensures { OnOk result (text.new.items ≡ text.old.items ++ line_text class from.x from.y to.x to.y) }
{
    push_front(text, "<path class=\"", class)?;
    push_marked(text, "\" d=\"M", from.x)?;
    push_marked(text, " ", from.y)?;
    push_marked(text, "L", to.x)?;
    push_marked(text, " ", to.y)?;
    push(text, "\"/>")
}

/// Appends a text that begins at a point.
#[tactic(auto, unfolding(crate::specs::Shapes::label_text))]
pub(crate) fn push_label(
    text: &mut Vec<u8>,
    class: Class,
    at: Point,
    bytes: &[u8],
) -> Result<(), AllocError>
    ensures { OnOk result (text.new.items ≡ text.old.items ++ label_text class at.x at.y bytes.now) }
{
    push_front(text, "<text class=\"", class)?;
    push_marked(text, "\" x=\"", at.x)?;
    push_marked(text, "\" y=\"", at.y)?;
    push(text, "\">")?;
    push_escaped(text, bytes)?;
    push(text, "</text>")
}
