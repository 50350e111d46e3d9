//! The tokens of a text.
ghost use Rattle.std.specs.Prelude.{◌≡◌, ◌+◌, ◌<◌, ◌^◌, ◌⊎◌, List, ◌∷◌, length, All};
ghost use Rattle.std.specs.Prelude.{Err, option_map, MatchOption, IfOk, IfErr, IsOkAnd};
ghost use Rattle.std.specs.List.{slice_split, position_or_len};
ghost use Rattle.text_scan.specs.declared.token.Token.{Token};
ghost use Rattle.text_scan.specs.declared.fault.ScanFault.{ScanFault};
ghost use Rattle.text_scan.specs.declared.fault.ScanFault.TheVariants.{NoMemory};
ghost use Rattle.text_scan.specs.Bytes.{is_newline};
ghost use Rattle.readers.specs.Answers.{AnswersAs};
ghost use Rattle.text_scan.specs.Fault.{is_refusal};
ghost use Rattle.text_scan.specs.Tokens.{scanned, lines_behind};
ghost use Rattle.text_scan.specs.Grammar.{HasTokens, HasFault, Placed, IsSpelled};

use crate::fault::ScanFault;
use crate::line::push_line;
use crate::token::{Token, TokenKind};
use std::alloc::Global;

// How many bytes the first line has.
fn first_len(text: &[u8]) -> usize
    ensures { result ≡ position_or_len is_newline text.now }
{
    text.iter().take_while(|byte| **byte != b'\n').count()
}

// The first line, and what follows its newline, where there is one.
fn first_line(text: &[u8]) -> (&[u8], Option<&[u8]>)
    ensures parts { slice_split is_newline text.now
        ≡ result.0.now ∷ lines_behind (option_map (λ r. r.now) result.1) }
    ensures len { MatchOption result.1 (length result.0.now ≡ length text.now)
        (λ r. length result.0.now + length r.now + 1 ≡ length text.now) }
{
    let len = first_len(text);
    if len < text.len() {
        (&text[..len], Some(&text[len + 1..]))
    } else {
        (text, None)
    }
}

/// The tokens of a text in their order, or its first fault.
///
/// A text is lines, with a newline (10) between each two. A line has at most [`LONGEST_LINE`] bytes,
/// its newline not counted. Blanks, which are space, tab and carriage return, and comments, from `#`
/// to the line's end with any bytes, are no tokens. Each token has as many bytes as can be; a run of
/// name bytes that begins with a digit is a number up to its last leading digit, and then a name.
///
/// The first fault is that at the lowest place, where a line that is too long has its first byte too
/// many; of two at one place, it is the one that [`ScanFault`] lists first. `NoMemory` may come for
/// any text.
#[tactic(auto, unfolding(crate::specs::Tokens::scanned))]
pub fn scan(alloc: Global, text: &[u8]) -> Result<Vec<Token>, ScanFault>
    requires { length text.now < 2 ^ 32 }
    // Which tokens, or which fault.
    ensures exact { AnswersAs is_refusal (λ v. v.items) result (scanned text.now) }
    // What is given are tokens of the text.
    ensures found { IfOk result (λ v. HasTokens text.now v.items) }
    // What the text has as tokens is given, unless memory is refused.
    ensures only { (tokens : List Token) → HasTokens text.now tokens →
        IsOkAnd result (λ v. v.items ≡ tokens) ⊎ (result ≡ Err NoMemory) }
    // A fault is the first one of the text.
    ensures fails { IfErr result (λ e. (e ≡ NoMemory) ⊎ HasFault text.now e) }
    // The first fault of a text is told, unless memory is refused.
    ensures first { (fault : ScanFault) → HasFault text.now fault →
        (result ≡ Err fault) ⊎ (result ≡ Err NoMemory) }
    // Where tokens stand, and what their bytes are.
    ensures placed { IfOk result (λ v. Placed 0 (length text.now) v.items) }
    ensures spelled { IfOk result (λ v. All (IsSpelled text.now) v.items) }
{
    let mut tokens = Vec::new(alloc);
    // Wider than a place: after the last newline that a text can have it is 2^32.
    let mut number: u64 = 1;
    let mut at = 0;
    let mut rest = text;
    loop {
        let (line, behind) = first_line(rest);
        push_line(number, at, line, &mut tokens)?;
        let Some(next) = behind else {
            return Ok(tokens);
        };
        at += line.len() as u32;
        tokens.push(Token {
            kind: TokenKind::NewLine,
            at,
            len: 1,
        })?;
        at += 1;
        number += 1;
        rest = next;
    }
}
