//! What holds of the spelling of components. These functions do nothing; their contracts are the laws.
ghost use Rattle.std.specs.Prelude.{◌≡◌, ◌<◌, ◌≤◌, ◌∷◌, ◌++◌, List, ℕ, length, take, Ok, Err};
ghost use Rattle.component_file.specs.declared.component.ComponentFields.{ComponentFields};
ghost use Rattle.component_file.specs.declared.fault.FileFault.TheVariants.{Short, Trailing};
ghost use Rattle.component_file.specs.Limits.{IsComponent};
ghost use Rattle.component_file.specs.Spelling.{SpellsComponent, spelling};
ghost use Rattle.component_file.specs.Reading.{decoded};

/// Each component has one spelling, of no other, and none begins another.
pub fn one_spelling()
    ensures { (c d : ComponentFields) (a b x y : List ℕ) →
        SpellsComponent a c → SpellsComponent b d → a ++ x ≡ b ++ y → (c ≡ d) × (a ≡ b) × (x ≡ y) }
{}

/// Decoding a component's spelling gives that component.
pub fn spelling_is_read()
    ensures { (c : ComponentFields) → IsComponent c → decoded (spelling c) ≡ Ok c }
{}

/// Bytes after a component's spelling are `Trailing`, at the first of them.
pub fn no_more_is_read()
    ensures { (c : ComponentFields) (byte : ℕ) (more : List ℕ) →
        IsComponent c → decoded (spelling c ++ byte ∷ more) ≡ Err (Trailing (length (spelling c))) }
{}

/// A component's spelling, cut anywhere, is `Short`, at a field that begins at the cut or before.
pub fn what_is_cut_is_short()
    ensures { (c : ComponentFields) (n : ℕ) → IsComponent c → n < length (spelling c) →
        (at : ℕ) × (at ≤ n) × (decoded (take n (spelling c)) ≡ Err (Short at)) }
{}
