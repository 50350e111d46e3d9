//! Modules from texts.
ghost use Rattle.std.specs.Prelude.{◌≡◌, ◌<◌, ◌^◌, ◌⊎◌, ℕ, length, map, All, IfOk, IfErr, IsOkAnd, Err};
ghost use Rattle.text_scan.specs.declared.fault.ScanFault.{ScanFault};
ghost use Rattle.text_scan.specs.Grammar.{HasFault, Placed, IsSpelled};
ghost use Rattle.proc_grammar.specs.declared.fault.ParseFault.{ParseFault};
ghost use Rattle.proc_grammar.specs.declared.fault.ParseFault.TheVariants.{Scan, Expected, NoMemory};
ghost use Rattle.proc_grammar.specs.Fault.{AnswersAs};
ghost use Rattle.proc_grammar.specs.Lexemes.{seen, lexemes, is_line_end};
ghost use Rattle.proc_grammar.specs.Reading.{full, parsed};
ghost use Rattle.proc_parse.specs.Answers.{InText};
ghost use Rattle.proc_parse.specs.Texts.{proper, parsed_text, Spells, Stops, IsFault, PassesBefore};

use crate::cursor::TokenCursor;
use crate::module::module;
use proc_grammar::{Language, ParseFault};
use std::alloc::{AllocError, Global};
use text_scan::{Token, TokenKind, scan};

fn is_line_end(kind: TokenKind) -> bool
    ensures { result ≡ is_line_end kind }
{
    matches!(kind, TokenKind::NewLine)
}

// The tokens that end no line.
fn proper(alloc: Global, tokens: &[Token]) -> Result<Vec<Token>, AllocError>
    ensures { IfOk result (λ v. v.items ≡ proper tokens.now) }
{
    let mut kept = Vec::new(alloc);
    for token in tokens {
        if !is_line_end(token.kind) {
            kept.push(*token)?;
        }
    }
    Ok(kept)
}

// The module that these tokens spell, all of them.
#[tactic(auto, unfolding(proc_grammar::specs::Reading::parsed))]
fn parse_tokens<L: Language>(
    alloc: Global,
    text: &[u8],
    tokens: &[Token],
) -> Result<L::Module, ParseFault>
    requires placed { InText text.now tokens.now }
    requires short { length text.now < 2 ^ 32 }
    ensures { AnswersAs (λ m. m) result
        (parsed L.made full (map (seen text.now) tokens.now) (length text.now)) }
{
    let mut cursor = TokenCursor::of(text, tokens, text.len() as u32);
    let module = module::<L>(alloc, &mut cursor)?;
    if cursor.is_at_end() {
        Ok(module)
    } else {
        Err(ParseFault::Expected(cursor.place()))
    }
}

// The module of a text that has these tokens.
fn parse_scanned<L: Language>(
    alloc: Global,
    text: &[u8],
    tokens: &[Token],
) -> Result<L::Module, ParseFault>
    requires short { length text.now < 2 ^ 32 }
    requires placed { Placed 0 (length text.now) tokens.now }
    requires spelled { All (IsSpelled text.now) tokens.now }
    ensures { AnswersAs (λ m. m) result
        (parsed L.made full (lexemes text.now tokens.now) (length text.now)) }
{
    let tokens = proper(alloc, tokens)?;
    parse_tokens::<L>(alloc, text, tokens.as_slice())
}

/// What the text spells in this language, or its first fault; what [`parse`](crate::parse) says of faults
/// stands here too.
pub fn parse_in<L: Language>(alloc: Global, text: &[u8]) -> Result<L::Module, ParseFault>
    requires { length text.now < 2 ^ 32 }
    // Which module, or which fault.
    ensures exact { AnswersAs (λ m. m) result (parsed_text L.made text.now) }
    // What is given is spelled by the text.
    ensures found { IfOk result (Spells L.made text.now) }
    // What the text spells is given, unless memory is refused.
    ensures only { (m : L.Module) → Spells L.made text.now m →
        IsOkAnd result (λ v. v ≡ m) ⊎ (result ≡ Err NoMemory) }
    // A fault is one of the text.
    ensures fails { IfErr result (IsFault L.made text.now) }
    // A text without tokens has its scan fault told, unless memory is refused.
    ensures scans { (fault : ScanFault) → HasFault text.now fault →
        (result ≡ Err (Scan fault)) ⊎ (result ≡ Err NoMemory) }
    // Where the text stops to be the beginning of a module, it is told so, unless it passes a limit before
    // that place, or memory is refused.
    ensures stops { (at : ℕ) → Stops L.made text.now at → (result ≡ Err (Expected at))
        ⊎ ((fault : ParseFault) × (result ≡ Err fault) × PassesBefore L.made text.now at fault)
        ⊎ (result ≡ Err NoMemory) }
{
    let tokens = scan(alloc, text)?;
    parse_scanned::<L>(alloc, text, tokens.as_slice())
}
