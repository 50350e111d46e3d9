//! What holds of assembler texts. These functions do nothing; their contracts are the laws.
ghost use Rattle.std.specs.Prelude.{◌≡◌, ℕ, List, Ok};
ghost use Rattle.component_file.specs.declared.component.ComponentFields.{ComponentFields};
ghost use Rattle.component_file.specs.Limits.{IsComponent};
ghost use Rattle.assembler.specs.Assembled.{assembled};

/// What an assembler text spells keeps the limits of components.
pub fn what_is_spelled_keeps_the_limits()
    ensures { (text : List ℕ) (c : ComponentFields) → assembled text ≡ Ok c → IsComponent c }
{}
