//! What holds of the modules that texts spell. These functions do nothing; their contracts are the laws.
ghost use Rattle.std.specs.Prelude.{◌≡◌, ◌<◌, ◌^◌, ℕ, List, All, length, Ok};
ghost use Rattle.proc_language.specs.declared.module.ModuleFields.{ModuleFields};
ghost use Rattle.proc_language.specs.Limits.{IsModule};
ghost use Rattle.proc_grammar.specs.Grammar.{IsText};
ghost use Rattle.proc_grammar.specs.Lexemes.{Lexeme};
ghost use Rattle.proc_grammar.specs.Tokens.{IsLexeme};
ghost use Rattle.proc_parse.specs.Text.{parsed_text, Spells};
ghost use Rattle.proc_parse.specs.Texts as texts;

use proc_grammar::laws::what_is_spelled_keeps_the_limits;
use proc_grammar::{Language, Plain};

/// In any language of the grammar a text under 2^64 bytes is read as a module exactly if it spells it, and
/// spells one at most.
///
/// It is spelled by tokens that have the bytes of their kinds.
pub fn spelled_texts_are_read<L: Language>()
    ensures one { (text : List ℕ) (m m' : L.Module) →
        texts.Spells L.made text m → texts.Spells L.made text m' → m ≡ m' }
    ensures read { (text : List ℕ) (m : L.Module) → length text < 2 ^ 64 →
        texts.Spells L.made text m → texts.parsed_text L.made text ≡ Ok m }
    ensures found { (text : List ℕ) (m : L.Module) → texts.parsed_text L.made text ≡ Ok m →
        texts.Spells L.made text m }
    ensures proper { (text : List ℕ) (m : L.Module) → texts.Spells L.made text m →
        (tokens : List Lexeme) × All IsLexeme tokens × IsText L.made tokens m }
{
    text_scan::laws::tokens_are_pieces();
    text_scan::laws::reading_keeps_the_grammar();
}

/// A plain source spells at most one module, the one read of it, within the limits.
///
/// To be read it has fewer than 2^64 bytes.
pub fn texts_spell_modules()
    ensures one { (text : List ℕ) (m m' : ModuleFields) → Spells text m → Spells text m' → m ≡ m' }
    ensures within_limits { (text : List ℕ) (m : ModuleFields) → Spells text m → IsModule m }
    ensures read { (text : List ℕ) (m : ModuleFields) → length text < 2 ^ 64 → Spells text m →
        parsed_text text ≡ Ok m }
    ensures found { (text : List ℕ) (m : ModuleFields) → parsed_text text ≡ Ok m → Spells text m }
{
    spelled_texts_are_read::<Plain>();
    what_is_spelled_keeps_the_limits();
}
