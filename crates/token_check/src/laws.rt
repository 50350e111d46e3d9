//! What holds of the typing. These functions do nothing; their contracts are the laws.
ghost use Rattle.std.specs.Prelude.{◌≡◌, ◌↔◌, Ok};
ghost use Rattle.token_language.specs.declared.module.TokenModuleFields.{TokenModuleFields};
ghost use Rattle.token_check.specs.Walk.{module_walk};
ghost use Rattle.token_check.specs.Typing.{IsTyped};

/// The walk goes through a module exactly if the module is typed.
#[tactic(auto, using(crate::proofs::TypingLemmas::walks))]
pub fn walks_are_typed()
    ensures { (m : TokenModuleFields) → ((module_walk m ≡ Ok tt) ↔ IsTyped m) }
{}
