//! Numbers as they are written.
ghost use Rattle.std.specs.Prelude.{◌≡◌, ◌+◌, ◌≤◌, ◌<◌, length, IfSome, IfNone, IsTrue};
ghost use Rattle.std.specs.List.{list_all};
ghost use Rattle.std.specs.Str.Parse.{digits_value};
ghost use Rattle.cap_words.specs.Names.{is_digit};
ghost use Rattle.line_fields.specs.Numbers.{is_plain, are_digits, number_in, natural_in, negative};
ghost use Rattle.line_fields.specs.Numbers.{integer_in};

use crate::{LAST_INTEGER, LAST_NATURAL};

fn is_digit(byte: &u8) -> bool
    ensures { result ≡ is_digit byte.now }
{
    byte.is_ascii_digit()
}

// Whether no zero stands in front of it, but for 0 itself.
fn is_plain(text: &[u8]) -> bool
    requires { 0 < length text.now }
    ensures { result ≡ is_plain text.now }
{
    text.len() == 1 || text[0] != b'0'
}

fn all_digits(text: &[u8]) -> bool
    ensures { result ≡ list_all is_digit text.now }
{
    text.iter().all(is_digit)
}

// Whether it is a number.
fn are_digits(text: &[u8]) -> bool
    ensures { result ≡ are_digits text.now }
{
    if text.is_empty() {
        return false;
    }
    if !is_plain(text) {
        return false;
    }
    all_digits(text)
}

// The number that digits spell, and `None` exactly where it is too large.
fn value(digits: &[u8], most: u64) -> Option<u64>
    requires digits { IsTrue (list_all is_digit digits.now) }
    requires some { 9 ≤ most }
    ensures found { IfSome result (λ n. (n ≡ digits_value 10 digits.now) × (n ≤ most)) }
    ensures none { IfNone result (most < digits_value 10 digits.now) }
{
    let mut value: u64 = 0;
    for digit in digits {
        let digit = u64::from(*digit - b'0');
        if (most - digit) / 10 < value {
            return None;
        }
        value = value * 10 + digit;
    }
    Some(value)
}

/// The number that a text is, where it is at most so large; `None` exactly where the text is the decimal text
/// of no such number. `0` stands in front of no digit, and no sign in front of a number.
#[tactic(auto, unfolding(crate::specs::Numbers::number_in))]
pub fn number_in(text: &[u8], most: u64) -> Option<u64>
    requires { 9 ≤ most }
    ensures exact { result ≡ number_in most text.now }
    ensures within { IfSome result (λ n. n ≤ most) }
{
    if !are_digits(text) {
        return None;
    }
    value(text, most)
}

/// The number of 32 bits that a text is, read as [`number_in`] reads.
pub fn natural_in(text: &[u8]) -> Option<u32>
    ensures { result ≡ natural_in text.now }
{
    let number = number_in(text, LAST_NATURAL)?;
    Some(number as u32)
}

// The integer after a minus.
fn negative(number: u64) -> Option<i64>
    requires { number ≤ LAST_INTEGER + 1 }
    ensures { result ≡ negative number }
{
    if number == 0 {
        return None;
    }
    Some(-1 - (number - 1) as i64)
}

/// The integer of 64 bits that a text is, and `None` exactly where the text is the decimal text of none. A
/// minus stands only in front of a number that isn't 0.
#[tactic(auto, unfolding(crate::specs::Numbers::integer_in))]
pub fn integer_in(text: &[u8]) -> Option<i64>
    ensures { result ≡ integer_in text.now }
{
    if text.starts_with(b"-") {
        return negative(number_in(&text[1..], LAST_INTEGER + 1)?);
    }
    let number = number_in(text, LAST_INTEGER)?;
    Some(number as i64)
}
