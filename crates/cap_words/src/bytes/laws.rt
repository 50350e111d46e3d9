//! What holds of the spelling of words. These functions do nothing; their contracts are the laws.
ghost use Rattle.std.specs.Prelude.{◌≡◌, ◌++◌, List, ℕ};
ghost use Rattle.cap_words.specs.declared.Word.{Word};
ghost use Rattle.cap_words.specs.WordBytes.{SpellsWord};

/// Each word has one spelling, of no other, and none begins another.
///
/// So words can stand one after another with nothing between.
pub fn one_spelling()
    ensures { (v w : Word) (a b x y : List ℕ) →
        SpellsWord a v → SpellsWord b w → a ++ x ≡ b ++ y → (v ≡ w) × (a ≡ b) × (x ≡ y) }
{}
