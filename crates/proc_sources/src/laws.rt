//! What holds of sources. These functions do nothing; their contracts are the laws.
ghost use Rattle.std.specs.Prelude.{◌≡◌, ℕ, List, [], Ok};
ghost use Rattle.component_file.specs.declared.component.ComponentFields.{ComponentFields};
ghost use Rattle.proc_language.specs.declared.module.ModuleFields.{ModuleFields};
ghost use Rattle.proc_language.specs.Limits.{IsModule};
ghost use Rattle.proc_names.specs.NameFaults.{name_faults};
ghost use Rattle.proc_templates.specs.Compiled.{compiled};
ghost use Rattle.proc_language.specs.declared.dialect.Dialect.{Dialect};
ghost use Rattle.proc_language.specs.declared.dialect.Dialect.TheVariants.{Tokens};
ghost use Rattle.token_language.specs.declared.module.TokenModuleFields.{TokenModuleFields};
ghost use Rattle.token_language.specs.Erased.{erased};
ghost use Rattle.token_language.specs.Limits.{IsTokenModule};
ghost use Rattle.token_language.specs.TokenFaults.{IsTokenResolved};
ghost use Rattle.token_check.specs.Typing.{IsTyped};
ghost use Rattle.proc_sources.specs.Sources.{token_module_in, module_in, sourced};

/// A source's module keeps the limits and has resolved names; compiled, it is the source's component.
pub fn sources_are_modules()
    ensures limits { (d : Dialect) (text : List ℕ) (m : ModuleFields) → module_in d text ≡ Ok m → IsModule m }
    ensures resolved { (d : Dialect) (text : List ℕ) (m : ModuleFields)
        → module_in d text ≡ Ok m → name_faults m ≡ [] }
    ensures compiled { (d : Dialect) (text : List ℕ) (c : ComponentFields) → sourced d text ≡ Ok c
        → (m : ModuleFields) × (module_in d text ≡ Ok m) × (c ≡ compiled m) }
{
    proc_parse::laws::texts_spell_modules();
    token_parse::laws::texts_spell_modules();
    token_language::laws::erased_modules_are_resolved();
}

/// The module of a source with tokens is the erasure of a typed one.
///
/// That keeps the limits, and its names are resolved.
pub fn tokens_are_erased()
    ensures { (text : List ℕ) (m : ModuleFields) → module_in Tokens text ≡ Ok m
        → (t : TokenModuleFields) × (token_module_in text ≡ Ok t) × IsTokenModule t × IsTokenResolved t
        × IsTyped t × (m ≡ erased t) }
{
    token_parse::laws::texts_spell_modules();
    token_check::laws::walks_are_typed();
}
