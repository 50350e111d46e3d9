//! Modules of the language of tokens.
ghost use Rattle.std.specs.Prelude.{◌≡◌, ◌<◌, ◌^◌, ◌⊎◌, ℕ, length, IfOk, IfErr, IsOkAnd, Err};
ghost use Rattle.text_scan.specs.declared.fault.ScanFault.{ScanFault};
ghost use Rattle.text_scan.specs.Grammar.{HasFault};
ghost use Rattle.token_language.specs.Limits.{IsTokenModule};
ghost use Rattle.token_language.specs.declared.module.TokenModuleFields.{TokenModuleFields};
ghost use Rattle.proc_grammar.specs.declared.fault.ParseFault.{ParseFault};
ghost use Rattle.proc_grammar.specs.declared.fault.ParseFault.TheVariants.{Scan, Expected, NoMemory};
ghost use Rattle.proc_grammar.specs.Fault.{AnswersAs};
ghost use Rattle.token_parse.specs.Text.{parsed_text, Spells, Stops, IsFault, PassesBefore};

use crate::language::Tokens;
use crate::laws::texts_spell_modules;
use proc_grammar::ParseFault;
use proc_parse::parse_in;
use std::alloc::Global;
use token_language::{TokenModule, TokenModuleFields};

// What was read keeps the limits.
fn as_module(read: Result<TokenModuleFields, ParseFault>) -> Result<TokenModule, ParseFault>
    requires { IfOk read IsTokenModule }
    ensures { result ≡ read }
{
    match read {
        Ok(fields) => Ok(TokenModule::of(fields)),
        Err(fault) => Err(fault),
    }
}

/// The module with tokens that the text spells, or its first fault.
///
/// A text that can't be cut into tokens has the fault `Scan`. Of the others, the fault whose place
/// comes first is told, and of those at one place the one that [`ParseFault`] lists first. `NoMemory` may
/// come for any text. docs/TOKENS.md has the grammar beside that of docs/LANGUAGE.md, with
/// the limits, and what stands where.
pub fn parse_tokens(alloc: Global, text: &[u8]) -> Result<TokenModule, ParseFault>
    requires { length text.now < 2 ^ 32 }
    // Which module, or which fault.
    ensures exact { AnswersAs (λ m. m) result (parsed_text text.now) }
    // What is given is spelled by the text.
    ensures found { IfOk result (Spells text.now) }
    // What the text spells is given, unless memory is refused.
    ensures only { (m : TokenModuleFields) → Spells text.now m →
        IsOkAnd result (λ v. v ≡ m) ⊎ (result ≡ Err NoMemory) }
    // A fault is one of the text.
    ensures fails { IfErr result (IsFault text.now) }
    // A text without tokens has its scan fault told, unless memory is refused.
    ensures scans { (fault : ScanFault) → HasFault text.now fault →
        (result ≡ Err (Scan fault)) ⊎ (result ≡ Err NoMemory) }
    // Where the text stops to be the beginning of a module, it is told so, unless it passes a limit before
    // that place, or memory is refused.
    ensures stops { (at : ℕ) → Stops text.now at → (result ≡ Err (Expected at))
        ⊎ ((fault : ParseFault) × (result ≡ Err fault) × PassesBefore text.now at fault)
        ⊎ (result ≡ Err NoMemory) }
{
    texts_spell_modules();
    as_module(parse_in::<Tokens>(alloc, text))
}
