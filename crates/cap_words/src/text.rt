//! Words as text, for a reader of the machine's output.
//!
//! The private functions each append a part of a text. Each asks for room as if every `u32` took
//! ten digits, and says how many bytes the part takes at most: a base or an end takes seven.
ghost use Rattle.std.specs.Prelude.{◌≡◌, ◌+◌, ◌≤◌, ◌++◌, length, decimal, IsAscii};
ghost use Rattle.std.specs.Fmt.{signed_decimal};
ghost use Rattle.arrayvec.specs.ArrayString.{array_string_len};
ghost use Rattle.cap_words.specs.Text.{range_text, cap_text, seal_text, sealable_text, sealed_text};
ghost use Rattle.cap_words.specs.Text.{word_text_of};

use crate::{CapFields, LAST_PLACE, SealFields, Sealable, Word};
use arrayvec::ArrayString;
use itoa::Buffer;

/// The text of a word, with each number in decimal. It takes no memory.
///
/// An integer is its number. A memory capability is `cap(PERM,LIN,BASE,END,ADDR)`, where PERM is
/// `no`, `r`, `rw`, `rx` or `rwx`, and LIN is `lin` or `nor`. A seal capability is
/// `seal(BASE,END,CUR)`, and a sealed word is `sealed(SEAL,CONTENT)` with its content's text.
///
/// It has at most 68 bytes, each of them ASCII.
pub fn word_text(word: &Word) -> ArrayString<128>
    ensures text { result.bytes ≡ word_text_of word.now }
    ensures short { length result.bytes ≤ 68 }
    ensures ascii { IsAscii result.bytes }
{
    let mut text = ArrayString::new();
    match word {
        Word::Int(number) => push_signed(&mut text, *number),
        Word::Mem(cap) => push_cap(&mut text, cap.fields()),
        Word::Seal(cap) => push_seal(&mut text, cap.fields()),
        Word::Sealed(seal, content) => push_sealed(&mut text, *seal, content),
    }
    text
}

// A base, an end or a seal.
fn push_unsigned(text: &mut ArrayString<128>, number: u32)
    requires room { array_string_len text.old + 10 ≤ 128 }
    ensures text { text.new.bytes ≡ text.old.bytes ++ decimal number }
    ensures len { array_string_len text.new ≤ array_string_len text.old + 10 }
    ensures ascii { IsAscii (decimal number) }
{
    let mut digits = Buffer::new();
    text.push_str(digits.format(number));
}

// An integer, or what a capability points to.
fn push_signed(text: &mut ArrayString<128>, number: i64)
    requires room { array_string_len text.old + 20 ≤ 128 }
    ensures text { text.new.bytes ≡ text.old.bytes ++ signed_decimal number }
    ensures len { array_string_len text.new ≤ array_string_len text.old + 20 }
    ensures ascii { IsAscii (signed_decimal number) }
{
    let mut digits = Buffer::new();
    text.push_str(digits.format(number));
}

// `BASE,END,AT`
#[tactic(auto, unfolding(crate::specs::Text::range_text))]
fn push_range(text: &mut ArrayString<128>, base: u32, end: u32, at: i64)
    requires in_order { base ≤ end }
    requires in_space { end ≤ LAST_PLACE }
    requires room { array_string_len text.old + 42 ≤ 128 }
    ensures text { text.new.bytes ≡ text.old.bytes ++ range_text base end at }
    ensures len { array_string_len text.new ≤ array_string_len text.old + 36 }
    ensures ascii { IsAscii (range_text base end at) }
{
    push_unsigned(text, base);
    text.push_str(",");
    push_unsigned(text, end);
    text.push_str(",");
    push_signed(text, at);
}

// `cap(PERM,LIN,BASE,END,ADDR)`
#[tactic(auto, unfolding(crate::specs::Text::cap_text))]
fn push_cap(text: &mut ArrayString<128>, cap: CapFields)
    requires in_order { cap.base ≤ cap.end }
    requires in_space { cap.end ≤ LAST_PLACE }
    requires room { array_string_len text.old + 55 ≤ 128 }
    ensures text { text.new.bytes ≡ text.old.bytes ++ cap_text cap }
    ensures len { array_string_len text.new ≤ array_string_len text.old + 49 }
    ensures ascii { IsAscii (cap_text cap) }
{
    text.push_str("cap(");
    text.push_str(cap.perm.name());
    text.push_str(",");
    text.push_str(cap.lin.name());
    text.push_str(",");
    push_range(text, cap.base, cap.end, cap.addr);
    text.push_str(")");
}

// `seal(BASE,END,CUR)`
#[tactic(auto, unfolding(crate::specs::Text::seal_text))]
fn push_seal(text: &mut ArrayString<128>, cap: SealFields)
    requires in_order { cap.base ≤ cap.end }
    requires in_space { cap.end ≤ LAST_PLACE }
    requires room { array_string_len text.old + 48 ≤ 128 }
    ensures text { text.new.bytes ≡ text.old.bytes ++ seal_text cap }
    ensures len { array_string_len text.new ≤ array_string_len text.old + 42 }
    ensures ascii { IsAscii (seal_text cap) }
{
    text.push_str("seal(");
    push_range(text, cap.base, cap.end, cap.cur);
    text.push_str(")");
}

// What is under a seal.
fn push_sealable(text: &mut ArrayString<128>, content: &Sealable)
    requires room { array_string_len text.old + 55 ≤ 128 }
    ensures text { text.new.bytes ≡ text.old.bytes ++ sealable_text content.now }
    ensures len { array_string_len text.new ≤ array_string_len text.old + 49 }
    ensures ascii { IsAscii (sealable_text content.now) }
{
    match content {
        Sealable::Mem(cap) => push_cap(text, cap.fields()),
        Sealable::Seal(cap) => push_seal(text, cap.fields()),
    }
}

// `sealed(SEAL,CONTENT)`
#[tactic(auto, unfolding(crate::specs::Text::sealed_text))]
fn push_sealed(text: &mut ArrayString<128>, seal: u32, content: &Sealable)
    requires room { array_string_len text.old + 74 ≤ 128 }
    ensures text { text.new.bytes ≡ text.old.bytes ++ sealed_text seal content.now }
    ensures len { array_string_len text.new ≤ array_string_len text.old + 68 }
    ensures ascii { IsAscii (sealed_text seal content.now) }
{
    text.push_str("sealed(");
    push_unsigned(text, seal);
    text.push_str(",");
    push_sealable(text, content);
    text.push_str(")");
}
