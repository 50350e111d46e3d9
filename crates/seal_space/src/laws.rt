//! What holds of many draws. This function does nothing; its contract is the law.
ghost use Rattle.std.specs.Prelude.{◌≡◌, ◌+◌, ◌<◌, ◌≤◌, ℕ, Some, None};
ghost use Rattle.cap_words.specs.Stretch.{Stretch};
ghost use Rattle.seal_space.specs.Seals.{next_of, after_draws};

/// A lot gives its seals in ascending order, each once, and then none.
///
/// They are its first seal and those after it, as many as it counts. So no two draws from a lot give one
/// seal.
pub fn draws_ascend()
    ensures gives { (lot : Stretch) (n : ℕ) →
        n < lot.count → next_of (after_draws n lot) ≡ Some (lot.base + n) }
    ensures ends { (lot : Stretch) (n : ℕ) → lot.count ≤ n → next_of (after_draws n lot) ≡ None }
{}
