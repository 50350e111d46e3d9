//! The tokens of one line.
ghost use Rattle.std.specs.Prelude.{◌≡◌, ◌+◌, ◌≤◌, ◌<◌, ◌^◌, length, OnOk, ◌++◌};
ghost use Rattle.text_scan.specs.Tokens.{token_of, line_from, line_tokens, Appends};

use crate::LONGEST_LINE;
use crate::fault::ScanFault;
use crate::piece::{Piece, first_piece};
use crate::token::Token;
use std::alloc::AllocError;

// Appends the token of a piece that is one.
fn push_token(at: u32, piece: Piece, tokens: &mut Vec<Token>) -> Result<(), AllocError>
    requires { piece.len < 2 ^ 32 }
    ensures { OnOk result (tokens.new.items ≡ tokens.old.items ++ token_of at piece.kind piece.len) }
{
    if let Some(kind) = piece.kind {
        let len = piece.len as u32;
        tokens.push(Token { kind, at, len })?;
    }
    Ok(())
}

// Appends the tokens of a line of any length, which stands at this place of the text.
fn push_pieces(at: u32, line: &[u8], tokens: &mut Vec<Token>) -> Result<(), ScanFault>
    requires { at + length line.now < 2 ^ 32 }
    ensures { Appends result tokens.old.items tokens.new.items (line_from at 0 line.now) }
{
    let mut at = at;
    let mut rest = line;
    while !rest.is_empty() {
        let piece = first_piece(at, rest)?;
        let (_, behind) = rest.split_at(piece.len);
        push_token(at, piece, tokens)?;
        at += piece.len as u32;
        rest = behind;
    }
    Ok(())
}

/// Appends the tokens of a line, which has this number and stands at this place of the text.
#[tactic(auto, unfolding(crate::specs::Tokens::line_tokens))]
pub(crate) fn push_line(
    number: u64,
    at: u32,
    line: &[u8],
    tokens: &mut Vec<Token>,
) -> Result<(), ScanFault>
    requires place { at + length line.now < 2 ^ 32 }
    requires number { number ≤ at + 1 }
    ensures { Appends result tokens.old.items tokens.new.items (line_tokens number at line.now) }
{
    let pushed = push_pieces(at, line, tokens);
    if line.len() <= LONGEST_LINE as usize {
        return pushed;
    }
    let limit = at + LONGEST_LINE;
    match pushed {
        Err(ScanFault::NoMemory) => Err(ScanFault::NoMemory),
        Err(ScanFault::BadByte(at)) if at <= limit => Err(ScanFault::BadByte(at)),
        Err(ScanFault::NumberTooLarge(at)) if at <= limit => Err(ScanFault::NumberTooLarge(at)),
        _ => Err(ScanFault::LineTooLong(number as u32)),
    }
}
