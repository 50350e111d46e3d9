//! What holds of the modules that tokens spell. These functions do nothing; their contracts are the laws.
ghost use Rattle.std.specs.Prelude.{◌≡◌, ◌≤◌, ◌⊎◌, ℕ, List, length, All, Ok, Err};
ghost use Rattle.proc_language.specs.declared.module.ModuleFields.{ModuleFields};
ghost use Rattle.proc_language.specs.Limits.{IsModule};
ghost use Rattle.proc_grammar.specs.declared.fault.ParseFault.{ParseFault};
ghost use Rattle.proc_grammar.specs.declared.fault.ParseFault.TheVariants.{Expected};
ghost use Rattle.proc_grammar.specs.Lexemes.{Lexeme};
ghost use Rattle.proc_grammar.specs.Tokens.{IsLexeme};
ghost use Rattle.proc_grammar.specs.PlainTrees.{plain_trees};
ghost use Rattle.proc_grammar.specs.Grammar.{IsText};
ghost use Rattle.proc_grammar.specs.Reading.{parsed};
ghost use Rattle.proc_grammar.specs.Stuck.{IsExpected, IsBeyond, StandsIn};

use crate::language::Language;

/// Tokens are read as a module exactly if they spell it; else a fault is told where they stop, or for a limit
/// before.
///
/// Tokens spell one module at most. There is as much fuel for reading as there are tokens. If a token is told
/// as unexpected, or the text's end, the tokens before it begin a module, limits passed over, and with it
/// they begin none. If they do so, it is told, or before it the fault of a limit. No other faults are told,
/// and that of a limit stands at a token up to which, it included, the tokens begin a module.
pub fn reading_keeps_the_grammar<L: Language>()
    ensures found { (n : ℕ) (tokens : List Lexeme) (end : ℕ) (m : L.Module) →
        parsed L.made n tokens end ≡ Ok m → IsText L.made tokens m }
    ensures only { (n : ℕ) (tokens : List Lexeme) (end : ℕ) (m : L.Module) →
        length tokens ≤ n → IsText L.made tokens m → parsed L.made n tokens end ≡ Ok m }
    ensures one { (tokens : List Lexeme) (m m' : L.Module) →
        IsText L.made tokens m → IsText L.made tokens m' → m ≡ m' }
    ensures expected { (n : ℕ) (tokens : List Lexeme) (end at : ℕ) →
        parsed L.made n tokens end ≡ Err (Expected at) → IsExpected L.made tokens end at }
    ensures told { (n : ℕ) (tokens : List Lexeme) (end at : ℕ) → length tokens ≤ n →
        (stop : IsExpected L.made tokens end at) →
        (parsed L.made n tokens end ≡ Err (Expected at))
        ⊎ ((fault : ParseFault) × (parsed L.made n tokens end ≡ Err fault) × StandsIn stop.before fault) }
    ensures faults { (n : ℕ) (tokens : List Lexeme) (end : ℕ) (fault : ParseFault) → length tokens ≤ n →
        parsed L.made n tokens end ≡ Err fault →
        ((at : ℕ) × (fault ≡ Expected at)) ⊎ IsBeyond L.made tokens fault }
{}

/// What tokens spell that have the bytes of their kinds keeps the limits of modules.
pub fn what_is_spelled_keeps_the_limits()
    ensures { (tokens : List Lexeme) (m : ModuleFields) →
        All IsLexeme tokens → IsText plain_trees tokens m → IsModule m }
{}
