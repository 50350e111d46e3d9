//! What holds of the modules with tokens that texts spell. These functions do nothing; their contracts are
//! the laws.
ghost use Rattle.std.specs.Prelude.{◌≡◌, ◌<◌, ◌^◌, ℕ, List, All, length, Ok};
ghost use Rattle.token_language.specs.declared.module.TokenModuleFields.{TokenModuleFields};
ghost use Rattle.token_language.specs.Limits.{IsTokenModule};
ghost use Rattle.proc_grammar.specs.Grammar.{IsText};
ghost use Rattle.proc_grammar.specs.Lexemes.{Lexeme};
ghost use Rattle.proc_grammar.specs.Tokens.{IsLexeme};
ghost use Rattle.token_parse.specs.TokenTrees.{token_trees};
ghost use Rattle.token_parse.specs.Text.{parsed_text, Spells};

use crate::language::Tokens;
use proc_parse::laws::spelled_texts_are_read;

/// What tokens spell that have the bytes of their kinds keeps the limits of modules with tokens.
pub fn what_is_spelled_keeps_the_limits()
    ensures { (tokens : List Lexeme) (m : TokenModuleFields) →
        All IsLexeme tokens → IsText token_trees tokens m → IsTokenModule m }
{}

/// A source with tokens spells at most one module, the one read of it, within the limits.
///
/// To be read it has fewer than 2^64 bytes.
pub fn texts_spell_modules()
    ensures one { (text : List ℕ) (m m' : TokenModuleFields) → Spells text m → Spells text m' → m ≡ m' }
    ensures within_limits { (text : List ℕ) (m : TokenModuleFields) → Spells text m → IsTokenModule m }
    ensures read { (text : List ℕ) (m : TokenModuleFields) → length text < 2 ^ 64 → Spells text m →
        parsed_text text ≡ Ok m }
    ensures found { (text : List ℕ) (m : TokenModuleFields) → parsed_text text ≡ Ok m → Spells text m }
{
    spelled_texts_are_read::<Tokens>();
    what_is_spelled_keeps_the_limits();
}
