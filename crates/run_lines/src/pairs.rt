//! What an `xjmp` of an argument register and the next one would do.
ghost use Rattle.std.specs.Prelude.{◌≡◌};
ghost use Rattle.run_lines.specs.Pairs.{is_nothing, none_paired};

/// Of an argument register and the next one.
#[derive(Clone, Copy)]
pub enum PassedPair {
    /// One of the two isn't a sealed word, or is linear.
    Nothing,
    /// It would fail.
    Bad,
    /// It would go, and to no entry of a trusted part.
    Out,
    /// It would go under the closure seal of a trusted part: the part, by its place among the parts,
    /// and the entry, by its place among the part's.
    Hop(u32, u32),
}

/// Of the four argument registers.
#[derive(Clone, Copy)]
pub struct Pairs {
    /// Of a0 and a1.
    pub p0: PassedPair,
    /// Of a1 and a2.
    pub p1: PassedPair,
    /// Of a2 and a3.
    pub p2: PassedPair,
}

impl PassedPair {
    /// Whether nothing is told of the two.
    pub fn is_nothing(self) -> bool
        ensures { result ≡ is_nothing self }
    {
        matches!(self, PassedPair::Nothing)
    }
}

impl Pairs {
    /// Whether there is none.
    pub fn are_nothing(self) -> bool
        ensures { result ≡ none_paired self }
    {
        self.p0.is_nothing() && self.p1.is_nothing() && self.p2.is_nothing()
    }
}
