//! What holds of the calls of modules. These functions do nothing; their contracts are the laws.
ghost use Rattle.std.specs.Prelude.{◌≡◌, length};
ghost use Rattle.proc_language.specs.declared.module.ModuleFields.{ModuleFields};
ghost use Rattle.proc_names.specs.Calls.{module_calls, module_closed};

/// A module has as many calls as brackets of calls that close.
#[tactic(auto, using(crate::proofs::CallLemmas::counted))]
pub fn calls_are_counted()
    ensures { (m : ModuleFields) → length (module_closed m) ≡ module_calls m }
{}
