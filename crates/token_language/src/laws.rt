//! What holds of the names of modules with tokens. These functions do nothing; their contracts are the laws.
ghost use Rattle.std.specs.Prelude.{◌≡◌, []};
ghost use Rattle.proc_names.specs.NameFaults.{name_faults};
ghost use Rattle.token_language.specs.declared.module.TokenModuleFields.{TokenModuleFields};
ghost use Rattle.token_language.specs.Erased.{erased};
ghost use Rattle.token_language.specs.TokenFaults.{IsTokenResolved};

/// If a module with tokens is resolved, so is its erasure.
#[tactic(auto, using(crate::proofs::ErasedLemmas::erased_resolved))]
pub fn erased_modules_are_resolved()
    ensures { (m : TokenModuleFields) → IsTokenResolved m → name_faults (erased m) ≡ [] }
{}
