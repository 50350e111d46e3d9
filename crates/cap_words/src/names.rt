//! Names of components and of what they have.
ghost use Rattle.std.specs.Prelude.{◌≡◌};
ghost use Rattle.std.specs.List.{list_all};
ghost use Rattle.cap_words.specs.Names.{is_digit, is_name_byte, is_name};

use crate::LONGEST_NAME;

fn is_digit(byte: u8) -> bool
    ensures { result ≡ is_digit byte }
{
    matches!(byte, b'0'..=b'9')
}

fn is_name_byte(byte: &u8) -> bool
    ensures { result ≡ is_name_byte byte.now }
{
    matches!(*byte, b'a'..=b'z' | b'0'..=b'9' | b'_')
}

fn are_name_bytes(text: &[u8]) -> bool
    ensures { result ≡ list_all is_name_byte text.now }
{
    text.iter().all(is_name_byte)
}

/// Whether a text is a name: 1 to [`LONGEST_NAME`] bytes of `a` to `z`, `0` to `9` and `_`, the
/// first no digit.
#[tactic(auto, unfolding(crate::specs::Names::is_name))]
pub fn is_name(text: &[u8]) -> bool
    ensures { result ≡ is_name text.now }
{
    if text.is_empty() || LONGEST_NAME < text.len() {
        return false;
    }
    if is_digit(text[0]) {
        return false;
    }
    are_name_bytes(text)
}
