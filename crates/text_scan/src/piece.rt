//! The first piece of a line: a token, or blanks or a comment, which are none.
ghost use Rattle.std.specs.Prelude.{◌≡◌, ◌≤◌, ◌<◌, length, IfOk, IfSome, IfNone};
ghost use Rattle.std.specs.List.{prefix_len};
ghost use Rattle.std.specs.Str.Parse.{digits_value};
ghost use Rattle.text_scan.specs.declared.TheConstants.{LARGEST_NUMBER};
ghost use Rattle.text_scan.specs.Bytes.{is_digit, is_name_start, is_name_byte, is_blank, is_sign};
ghost use Rattle.text_scan.specs.Tokens.{number_piece, piece_at, begins_equal, AreDigits};

use crate::LARGEST_NUMBER;
use crate::fault::ScanFault;
use crate::token::TokenKind;

/// A piece: the token that it is, if any, and how many bytes it has.
#[derive(Clone, Copy)]
pub(crate) struct Piece {
    pub(crate) kind: Option<TokenKind>,
    pub(crate) len: usize,
}

fn is_digit(byte: u8) -> bool
    ensures { result ≡ is_digit byte }
{
    byte.is_ascii_digit()
}

fn is_name_start(byte: u8) -> bool
    ensures { result ≡ is_name_start byte }
{
    matches!(byte, b'a'..=b'z' | b'_')
}

fn is_name_byte(byte: u8) -> bool
    ensures { result ≡ is_name_byte byte }
{
    is_name_start(byte) || is_digit(byte)
}

fn is_blank(byte: u8) -> bool
    ensures { result ≡ is_blank byte }
{
    matches!(byte, b' ' | b'\t' | b'\r')
}

#[tactic(auto, unfolding(crate::specs::Bytes::is_sign))]
fn is_sign(byte: u8) -> bool
    ensures { result ≡ is_sign byte }
{
    b".,:;()[]{}=<+-/@%".contains(&byte)
}

// How many bytes at the front may stand in a name.
fn name_len(text: &[u8]) -> usize
    ensures { result ≡ prefix_len is_name_byte text.now }
{
    text.iter().take_while(|byte| is_name_byte(**byte)).count()
}

// How many bytes at the front are digits.
fn digits_len(text: &[u8]) -> usize
    ensures { result ≡ prefix_len is_digit text.now }
{
    text.iter().take_while(|byte| is_digit(**byte)).count()
}

// The number that the digits spell, and `None` exactly where it is too large.
fn number(digits: &[u8]) -> Option<u64>
    requires { AreDigits digits.now }
    ensures found { IfSome result (λ n. (n ≡ digits_value 10 digits.now) × (n ≤ LARGEST_NUMBER)) }
    ensures none { IfNone result (LARGEST_NUMBER < digits_value 10 digits.now) }
{
    let mut value: u64 = 0;
    for digit in digits {
        let digit = u64::from(*digit - b'0');
        if (LARGEST_NUMBER - digit) / 10 < value {
            return None;
        }
        value = value * 10 + digit;
    }
    Some(value)
}

#[tactic(auto, unfolding(crate::specs::Tokens::number_piece))]
fn number_piece(at: u32, digits: &[u8]) -> Result<Piece, ScanFault>
    requires { AreDigits digits.now }
    ensures exact { result ≡ number_piece at digits.now }
    ensures whole { IfOk result (λ p. p.len ≡ length digits.now) }
{
    match number(digits) {
        Some(value) => Ok(Piece {
            kind: Some(TokenKind::Number(value)),
            len: digits.len(),
        }),
        None => Err(ScanFault::NumberTooLarge(at)),
    }
}

fn begins_equal(text: &[u8]) -> bool
    ensures { result ≡ begins_equal text.now }
{
    text.starts_with(b"==")
}

/// The first piece of what is left of a line, which stands at this place of the text.
#[tactic(auto, unfolding(crate::specs::Tokens::piece_at))]
pub(crate) fn first_piece(at: u32, text: &[u8]) -> Result<Piece, ScanFault>
    requires { 0 < length text.now }
    ensures exact { result ≡ piece_at at text.now }
    ensures within { IfOk result (λ p. (1 ≤ p.len) × (p.len ≤ length text.now)) }
{
    let first = text[0];
    if is_blank(first) {
        return Ok(Piece { kind: None, len: 1 });
    }
    if first == b'#' {
        return Ok(Piece {
            kind: None,
            len: text.len(),
        });
    }
    if is_name_start(first) {
        return Ok(Piece {
            kind: Some(TokenKind::Name),
            len: name_len(text),
        });
    }
    if is_digit(first) {
        return number_piece(at, &text[..digits_len(text)]);
    }
    if begins_equal(text) {
        return Ok(Piece {
            kind: Some(TokenKind::Equal),
            len: 2,
        });
    }
    if is_sign(first) {
        return Ok(Piece {
            kind: Some(TokenKind::Sign(first)),
            len: 1,
        });
    }
    Err(ScanFault::BadByte(at))
}
