//! What becomes of the tokens of sources. This function does nothing; its contract is the law.
ghost use Rattle.std.specs.Prelude.{◌≡◌, ℕ, List, map, Ok};
ghost use Rattle.proc_language.specs.declared.module.ModuleFields.{ModuleFields};
ghost use Rattle.proc_language.specs.declared.dialect.Dialect.{Dialect};
ghost use Rattle.proc_sources.specs.Sources.{module_in};
ghost use Rattle.token_sources.specs.Law.{Source, IsLeft, module_of, AreLeft, MeanAsErased};

/// A source spells an accepted module, whose erasure is its module, so the law of tokens holds of what it
/// means.
///
/// The source may be in either language. So, whatever sources are given to the program, what their modules
/// mean with any stack, feed and fuel is what the spelled modules with tokens mean. These are never stuck,
/// and no right of theirs is spent twice. Each right that a procedure got, which ended by `return` or after
/// its last statement, it spent once or handed on once, and it is spent: once, by this procedure or another
/// that ended.
pub fn sources_spend_their_tokens()
    ensures accepted { (d : Dialect) (text : List ℕ) (m : ModuleFields) → module_in d text ≡ Ok m
        → IsLeft d text m }
    ensures told { (sources : List Source) (modules : List ModuleFields)
        → map module_of sources ≡ map (λ m. Ok m) modules
        → (these : AreLeft sources modules) × MeanAsErased these.tokens modules }
{
    proc_sources::laws::sources_are_modules();
    proc_sources::laws::tokens_are_erased();
    token_semantics::laws::plain_modules_are_token_modules();
    token_semantics::laws::tokens_are_spent();
}
